// Tests of one row or word after another, as a source tells them.
ghost use Rattle.std.specs.Prelude.{◌≡◌, ℕ, Bool, List, take, drop};
ghost use Rattle.std.specs.List.{slice_get};
ghost use Rattle.visitors.specs.Parts.{words_of};
ghost use Rattle.std.specs.List.{list_all};
ghost use Rattle.function_tests.specs.Steps.{walked};

use hir_faults::{Envelope, Fault};
use react_compiler_hir::Source;
use visitors::Part;

// Whether a test holds of every word of a part. A part that leaves the words ends with them. Tried as
// chains of `map_while`, this loop and the next stayed open: the check does not show that what such a
// chain yields is that part of the list.
pub fn all_words<S: Source, F: Fn(u32) -> bool>(source: &S, part: Part, test: F) -> bool
    requires { F.IsAlwaysCallable test }
    ensures { (t : ℕ → Bool) → ((w : ℕ) (b : Bool) → F.post test w b → b ≡ t w) → result ≡ list_all t (words_of (S.function source.now).words part) }
{
    for i in 0..part.count {
        let Some(word) = source.word(part.start as usize + part.skip as usize + i as usize) else {
            return true;
        };
        if !test(word) {
            return false;
        }
    }
    true
}

// Tests what is told from one position on in turn, each with what the test before answered. It ends
// where nothing is told. Its count is the step of a place too.
pub fn test_each<
    T: Copy,
    M: Copy,
    G: Fn(usize) -> Option<T>,
    F: Fn(u32, M, T) -> Result<M, Envelope<Fault>>,
>(told: G, start: u32, count: u32, before: M, test: F) -> Result<M, Envelope<Fault>>
    requires told { G.IsAlwaysCallable told }
    requires test { F.IsAlwaysCallable test }
    ensures { (xs : List T) → ((i : ℕ) (r : _) → G.post told i r → r ≡ slice_get xs i) → (t : ℕ → M → T → _) → ((step : ℕ) (m : M) (x : T) (r : _) → F.post test step m x r → r ≡ t step m x) → result ≡ walked t 0 before (take count (drop start xs)) }
{
    let mut walked = before;
    for step in 0..count {
        let Some(item) = told(start as usize + step as usize) else {
            return Ok(walked);
        };
        walked = test(step, walked, item)?;
    }
    Ok(walked)
}
