//! Guest texts by their last names.
ghost use Rattle.std.specs.Prelude.{◌≡◌, ◌≢◌, ℕ, ◌≤◌, List, [], ◌∷◌, ◌++◌, length, MatchOption};
ghost use Rattle.std.specs.List.{All};
ghost use Rattle.pt_canon.specs.pr_base.Paths.{slash};
ghost use Rattle.pt_canon.specs.pt_bind.Binding.{IsWritten, names_of};
ghost use Rattle.pt_args.specs.Parting.{IsParted};

/// The text above a text and the text's last name; `None` exactly for the root.
pub fn parted(text: &[u8]) -> Option<(&[u8], &[u8])>
    requires { IsWritten text.now }
    ensures { MatchOption result (names_of text.now ≡ []) (λ parted. IsParted text.now parted.0.now parted.1.now) }
{
    if text.len() == 1 {
        return None;
    }
    let end = last_slash(text);
    let name = &text[end + 1..];
    if end == 0 {
        return Some((b"/".as_slice(), name));
    }
    Some((&text[..end], name))
}

/// Where the last slash stands; 0 where there is none.
fn last_slash(bytes: &[u8]) -> usize
    ensures within { result ≤ length bytes.now }
    ensures last { (front name : List ℕ) → bytes.now ≡ front ++ slash ∷ name → All (λ b. b ≢ slash) name → result ≡ length front }
{
    let mut end = bytes.len();
    while 0 < end {
        end -= 1;
        if bytes[end] == b'/' {
            return end;
        }
    }
    0
}
