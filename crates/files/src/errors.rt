// The machine's error numbers that programs tell apart. They are Linux's, and no enum of ours: the machine
// has others, and its words for each are asked for by number.
pub const ENOENT: i32 = 2;

pub const EIO: i32 = 5;

pub const EACCES: i32 = 13;

pub const ENOTDIR: i32 = 20;

pub const EISDIR: i32 = 21;

pub const EINVAL: i32 = 22;

pub const ENAMETOOLONG: i32 = 36;

pub const ELOOP: i32 = 40;

// a name that is not UTF-8
pub const EILSEQ: i32 = 84;
