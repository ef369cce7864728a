//! Parts of byte slices that may pass the end.
ghost use Rattle.std.specs.Prelude.{◌≡◌, ◌≤◌, length, take, drop};

/// What stands from a place on: nothing past the end.
#[tactic(auto, using(std::proofs::lemmas::List::drop_all))]
pub(crate) fn behind(bytes: &[u8], at: usize) -> &[u8]
    ensures { result.now ≡ drop at bytes.now }
{
    &bytes[at.min(bytes.len())..]
}

/// The first `n` bytes, or all where there are fewer.
#[tactic(auto, using(std::proofs::lemmas::List::take_min))]
pub(crate) fn front(bytes: &[u8], n: usize) -> &[u8]
    ensures value { result.now ≡ take n bytes.now }
    ensures within { length result.now ≤ n }
{
    &bytes[..n.min(bytes.len())]
}
