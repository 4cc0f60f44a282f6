//! The text of a kernel's limits.
ghost use Rattle.std.specs.Prelude.{◌≡◌, ◌++◌, ◌∷◌, ◌<◌, ◌^◌, IfSome, IsSomeAnd, List, Some, ℕ};
ghost use Rattle.std.specs.Option.{SomeIff};
ghost use Rattle.std.specs.Str.Parse.{IsNumeral, digits_value};
ghost use Rattle.ep_base.specs.Limits.{Limits as Numbers};
ghost use Rattle.ep_text.specs.Limits.{IsLimitsText};

use ep_base::Limits;

/// The number of a run of digits.
pub(crate) fn number(run: &str) -> Option<u32>
    ensures { SomeIff result (IsNumeral 10 run.now × (digits_value 10 run.now < 2 ^ 32))
        (digits_value 10 run.now) }
{
    // `parse` takes a plus sign too, which is no digit.
    if run.starts_with('+') {
        return None;
    }
    run.parse().ok()
}

/// The number of the digits before the first comma, and what stands behind that comma.
fn number_and_rest(text: &str) -> Option<(u32, &str)>
    ensures read { IfSome result
        (λ p. (run : List ℕ) × (text.now ≡ run ++ 44 ∷ p.1.now) × IsNumeral 10 run
        × (digits_value 10 run ≡ p.0)) }
    ensures found { (run rest : List ℕ) → text.now ≡ run ++ 44 ∷ rest → IsNumeral 10 run
        → digits_value 10 run < 2 ^ 32
        → IsSomeAnd result (λ p. (p.0 ≡ digits_value 10 run) × (p.1.now ≡ rest)) }
{
    let (run, rest) = text.split_once(',')?;
    let number = number(run)?;
    Some((number, rest))
}

/// The limits that a text writes: six runs of decimal digits with commas between and nothing else,
/// in the order of `Limits::new`. `None` exactly where the text isn't so or a number is out of its
/// range. Zeros may lead a run, and a run may be of any length.
pub fn parse_limits(text: &str) -> Option<Limits>
    ensures read { IfSome result (λ limits. IsLimitsText text.now limits) }
    ensures found { (limits : Numbers) → IsLimitsText text.now limits → result ≡ Some limits }
{
    let (descriptors, rest) = number_and_rest(text)?;
    let (files, rest) = number_and_rest(rest)?;
    let (processes, rest) = number_and_rest(rest)?;
    let (watches, rest) = number_and_rest(rest)?;
    let (pipe_bytes, rest) = number_and_rest(rest)?;
    let sock_bytes = number(rest)?;
    Limits::new(
        descriptors,
        files,
        processes,
        watches,
        pipe_bytes,
        sock_bytes,
    )
}
