//! Guests, what they are run on, and what they put out and leave.

use guests::DATA;

/// What a turn puts. It makes one call at most, and so puts to one sink.
#[derive(Clone, Copy)]
pub(crate) enum Turn {
    Out(&'static str),
    Errors(&'static str),
}

/// A guest, what it is run on, and what comes of it. In listings the program's line begins with an `x`.
#[derive(Clone, Copy)]
pub(crate) struct Scene {
    pub(crate) words: &'static str,
    pub(crate) tree: &'static [u8],
    pub(crate) guest: &'static str,
    pub(crate) input: &'static str,
    /// The turns that put something.
    pub(crate) turns: &'static [Turn],
    /// The listing that is left.
    pub(crate) left: &'static [u8],
}

impl Scene {
    pub(crate) fn named(name: &str) -> Option<Scene> {
        match name {
            "home" => Some(AT_HOME),
            "data" => Some(AS_ROOT),
            _ => None,
        }
    }
}

/// A child runs a script through a link, and its parent waits for it, opens a file that is bound, and asks for its working directory.
const AT_HOME: Scene = Scene {
    words: "-r /g -b /proc -b /etc/hosts -b /home/u -w /home/u run",
    tree: HOME,
    guest: "quiet clone 17;child execve /bin/hi [hi] [];parent quiet wait4 -1 0 0 0;\
            parent openat at /etc/hosts;parent getcwd buf 64",
    input: "",
    turns: &[Turn::Out("hello\n"), Turn::Out("3\n"), Turn::Out("8\n")],
    left: HOME,
};

/// As root: what only root may do, files of the guest and of the host, names that are made, moved and removed, errors, a child that
/// writes into a pipe, and effective numbers.
const AS_ROOT: Scene = Scene {
    words: "-r /g -0 -b /data:/mnt -w /a /p",
    tree: DATA,
    guest: "getuid;fchownat at /for 5 5;newfstatat at /for buf 0;openat at /mnt/n;bytes read 3 buf 64;quiet write 2 buf 3;\
            bytes readlinkat at /mnt/abs buf 64;mkdirat at /mnt/k 0x1ff;symlinkat 'f at /s;openat at /k 0x42 0x180;\
            bytes read 0 buf 4;write 4 buf 4;quiet write 2 buf 4;renameat2 at /k at /a/k;unlinkat at /h 0;bytes getcwd buf 64;\
            openat at /a 0x10000;getdents64 5 buf 4096;quiet pipe2 buf 0;quiet clone 17;child quiet write 2 'child 5;\
            child quiet write 7 'hello 5;parent bytes read 6 buf 10;parent quiet wait4 -1 0 0 0;\
            parent setresuid -1 7 -1;parent geteuid;parent setuid 0",
    input: "abcd",
    turns: ROOT_TURNS,
    left: ROOT_LEFT,
};

/// The root of the guest is `/g`, and `/g/bin/hello` has the bytes of the hello file. The lines stand in the order in which they are left.
const HOME: &[u8] = b"user 1000 1000
d 755 0 0 /
d 755 0 0 /etc
f 644 0 0 /etc/hosts 3132372e302e302e31206c6f63616c686f73740a
d 755 1000 1000 /g
d 755 1000 1000 /g/bin
f 755 1000 1000 /g/bin/greet 23212f62696e2f68656c6c6f0a
f 755 1000 1000 /g/bin/hello 7f454c460201010000000000000000000200f30001000000780001000000000040000000000000000000000000000000000000004000380001000000000000000100000005000000000000000000000000000100000000000000010000000000a200000000000000a20000000000000000100000000000009308000413051000970500009385c50113066000730000009308d005130500007300000068656c6c6f0a
l 1000 1000 /g/bin/hi greet
x 755 1000 1000 /g/bin/run
d 755 1000 1000 /g/dev
d 755 1000 1000 /g/etc
f 644 1000 1000 /g/etc/hosts -
f 644 1000 1000 /g/etc/passwd -
d 755 1000 1000 /g/home
d 755 1000 1000 /g/home/u
l 1000 1000 /g/log /var/log
d 755 1000 1000 /g/proc
d 1777 1000 1000 /g/tmp
d 755 1000 1000 /g/usr
d 755 1000 1000 /g/usr/bin
l 1000 1000 /g/usr/bin/hey ../../bin/hello
d 755 1000 1000 /g/var
d 755 1000 1000 /g/var/log
f 644 1000 1000 /g/var/log/old -
d 755 0 0 /home
d 755 1000 1000 /home/u
f 644 1000 1000 /home/u/note 68690a
p /proc
";

const ROOT_TURNS: &[Turn] = &[
    Turn::Out("0\n"),
    Turn::Out("0\n"),
    Turn::Out("0\n"),
    Turn::Out("3\n"),
    Turn::Out("d0\n\n"),
    Turn::Errors("d0\n"),
    Turn::Out("/f\n"),
    Turn::Out("0\n"),
    Turn::Out("0\n"),
    Turn::Out("4\n"),
    Turn::Out("abcd\n"),
    Turn::Out("4\n"),
    Turn::Errors("abcd"),
    Turn::Out("0\n"),
    Turn::Out("0\n"),
    Turn::Out("/a\0\n"),
    Turn::Out("5\n"),
    Turn::Out("120\n"),
    Turn::Errors("child"),
    Turn::Out("hello\n"),
    Turn::Out("0\n"),
    Turn::Out("7\n"),
    Turn::Out("0\n"),
];

/// What is made, moved and removed belongs to the host's user, and the owner that root changed is as it was.
const ROOT_LEFT: &[u8] = b"user 1000 1000
d 755 0 0 /
d 755 1000 1000 /data
l 1000 1000 /data/abs /f
d 755 1000 1000 /data/k
f 644 1000 1000 /data/n 64300a
l 1000 1000 /data/up /../../f
d 755 1000 1000 /g
d 755 1000 1000 /g/a
d 755 1000 1000 /g/a/b
f 644 1000 1000 /g/a/b/f 660a
f 600 1000 1000 /g/a/k 61626364
d 755 1000 1000 /g/a/x
d 755 1000 1000 /g/b
f 644 1000 1000 /g/f 6f6c640a
f 644 0 0 /g/for -
d 755 1000 1000 /g/mnt
x 755 1000 1000 /g/p
d 755 1000 1000 /g/proc
l 1000 1000 /g/s f
f 644 1000 1000 /new 6e65770a
d 755 1000 1000 /other
f 644 1000 1000 /other/o 6f0a
d 755 1000 1000 /other/x
p /proc
";
