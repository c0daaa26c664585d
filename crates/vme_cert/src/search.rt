//! Searches over a range of numbers, its first one included and its end not.

ghost use Rattle.std.specs.Prelude.{◌≡◌, ℕ, ◌<◌, ◌≤◌, Bool, IfSome};
ghost use Rattle.vme_cert.specs.Vocabulary.{least};
ghost use Rattle.vme_cert.specs.Tests.{MayAsk, Tests};

/// The least number of the range that meets the test.
#[tactic(auto, using(crate::proofs::Ranges::steps))]
pub(crate) fn least<F: Fn(u32) -> bool>(first: u32, end: u32, test: F) -> Option<u32>
    requires { MayAsk (F.pre test) first end }
    ensures found { (p : ℕ → Bool) → Tests (F.post test) first end p → result ≡ least p first end }
    ensures first { IfSome result (λ n. first ≤ n) }
    ensures below { IfSome result (λ n. n < end) }
{
    for number in first..end {
        if test(number) {
            return Some(number);
        }
    }
    None
}
