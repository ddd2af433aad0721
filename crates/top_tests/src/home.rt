//! The listing of a guest with a home directory, commands and a script.

/// The root of the guest is `/g`; `/g/bin/run` has the bytes of the ELF source, `/g/bin/hello` those of the hello file.
pub const HOME: &[u8] = b"user 1000 1000
d 755 0 0 /
d 755 0 0 /etc
f 644 0 0 /etc/hosts 3132372e302e302e31206c6f63616c686f73740a
d 755 0 0 /home
d 755 1000 1000 /home/u
f 644 1000 1000 /home/u/note 68690a
p /proc
d 755 1000 1000 /g
d 755 1000 1000 /g/bin
x 755 1000 1000 /g/bin/run
f 755 1000 1000 /g/bin/hello 7f454c460201010000000000000000000200f30001000000780001000000000040000000000000000000000000000000000000004000380001000000000000000100000005000000000000000000000000000100000000000000010000000000a200000000000000a20000000000000000100000000000009308000413051000970500009385c50113066000730000009308d005130500007300000068656c6c6f0a
f 755 1000 1000 /g/bin/greet 23212f62696e2f68656c6c6f0a
l 1000 1000 /g/bin/hi greet
d 755 1000 1000 /g/dev
d 755 1000 1000 /g/etc
f 644 1000 1000 /g/etc/hosts -
f 644 1000 1000 /g/etc/passwd -
d 755 1000 1000 /g/home
d 755 1000 1000 /g/home/u
d 755 1000 1000 /g/proc
d 1777 1000 1000 /g/tmp
d 755 1000 1000 /g/usr
d 755 1000 1000 /g/usr/bin
l 1000 1000 /g/usr/bin/hey ../../bin/hello
d 755 1000 1000 /g/var
d 755 1000 1000 /g/var/log
f 644 1000 1000 /g/var/log/old -
l 1000 1000 /g/log /var/log
";

/// The root, its bindings, the working directory and the command.
pub const WORDS: &str = "-r /g -b /proc -b /etc/hosts -b /home/u -w /home/u run";

/// A child runs a script through a link, and its parent waits for it, opens a file that is bound, and asks for its working directory.
pub const RUN: &str = "quiet clone 17;child execve /bin/hi [hi] [];parent quiet wait4 -1 0 0 0;\
                       parent openat at /etc/hosts;parent getcwd buf 64";

/// What that shows.
pub const SHOWN: &str = "hello\n3\n8\n";
