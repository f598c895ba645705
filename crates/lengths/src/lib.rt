// The lengths of number lists: whether those of one record kind differ, the shortest of an output list's, and whether each is
// long enough.
#![tactic(auto)]

ghost use Rattle.std.specs.Prelude.{◌≡◌, leb};
ghost use Rattle.std.specs.List.{list_all};
ghost use Rattle.rules.specs.Refusals.{lengths_differ, shortest};

// Whether some length is not the first one.
pub fn lengths_differ(lengths: &[usize]) -> bool
    ensures { result ≡ lengths_differ lengths.now }
{
    match lengths {
        [] => false,
        [first, rest @ ..] => rest.iter().any(|length| length != first),
    }
}

// The shortest of some lengths, and 0 of none.
pub fn shortest(lengths: &[usize]) -> usize
    ensures { result ≡ shortest lengths.now }
{
    lengths.iter().copied().min().unwrap_or(0)
}

// Whether each of the lengths is n or more.
pub fn each_at_least(n: usize, lengths: &[usize]) -> bool
    ensures { result ≡ list_all (leb n) lengths.now }
{
    lengths.iter().all(|&length| n <= length)
}
