//! Numbers of descriptors and of bytes among arguments and answers.
ghost use Rattle.std.specs.Prelude.{◌≡◌, ◌<◌, ◌^◌};
ghost use Rattle.pt_args.specs.Bases.{descriptor_number};
ghost use Rattle.pt_results.specs.Numbers.{count_of, made_number};

/// The number of a descriptor, `None` exactly where it is negative.
pub(crate) fn descriptor_number(fd: i32) -> Option<u32>
    ensures { result ≡ descriptor_number fd }
{
    match u32::try_from(fd) {
        Ok(fd) => Some(fd),
        Err(_) => None,
    }
}

/// The number that an answer gives, `None` exactly where it is an error or no number of 32 bits.
pub(crate) fn made_number(answer: i64) -> Option<u32>
    ensures { result ≡ made_number answer }
{
    match u32::try_from(answer) {
        Ok(number) => Some(number),
        Err(_) => None,
    }
}

/// How many bytes a size asks for; none where it is negative.
pub(crate) fn count_of(size: i32) -> u32
    ensures { result ≡ count_of size }
{
    match u32::try_from(size) {
        Ok(count) => count,
        Err(_) => 0,
    }
}
