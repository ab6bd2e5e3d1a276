// Elements of lent slices, at places that they may not have.
#![tactic(auto)]

ghost use Rattle.std.specs.Prelude.{◌≡◌, get_or, set};
ghost use Rattle.std.proofs.lemmas.List.Edits.{sets};

// The element at a place; behind the end it is `default`.
pub fn at<T: Copy>(s: &[T], k: usize, default: T) -> T
    ensures { result ≡ get_or s.now k default }
{
    s.get(k).copied().unwrap_or(default)
}

// Stores an element at a place; behind the end nothing is stored.
pub fn put<T: Copy>(s: &mut [T], k: usize, x: T)
    ensures { s.new ≡ set s.old k x }
{
    if k < s.len() {
        s[k] = x;
    }
}

// Stores elements one behind the other, from a place on; behind the end nothing is stored.
pub fn put_all<T: Copy>(s: &mut [T], at: usize, all: &[T])
    ensures { s.new ≡ sets s.old at all.now }
{
    if at < s.len() {
        let n = all.len().min(s.len() - at);
        s[at..at + n].copy_from_slice(&all[..n]);
    }
}
