ghost use Rattle.std.specs.Prelude.{◌≡◌, List, ℕ, map, IfOk, IfSome, IfNone, IsTrue, IsErrOf, string_bytes};
ghost use Rattle.host_top.specs.Words.{IsToken, IsPipe, IsPlan};

use fh_model::{NoMemory, TOKEN_MAX_BYTES, TOKEN_MIN_BYTES, Text};
use std::alloc::Global;

/// What the words of the command line ask for.
#[derive(Debug, Drop)]
pub enum Plan {
    /// Serves one connection over the store in this folder. `admin` is the token of user 1.
    Pipe { store: Text, admin: Text },
}

/// Why there is no plan.
#[derive(Clone, Copy, Debug, PartialEq, Eq)]
pub enum WordsFault {
    /// The words are not in the form.
    Usage,

    /// Memory was wanting.
    NoMemory,
}

fn is_token(word: &[u8]) -> bool
    ensures yes { IsTrue result → IsToken word.now }
    ensures no { IsToken word.now → IsTrue result }
{
    let passes = word
        .iter()
        .all(|b| b.is_ascii_alphanumeric() || *b == b'_' || *b == b'-');
    TOKEN_MIN_BYTES <= word.len() && word.len() <= TOKEN_MAX_BYTES && passes
}

fn is_word(word: &String, expected: &str) -> bool
    ensures yes { IsTrue result → string_bytes word.now ≡ expected.now }
    ensures no { string_bytes word.now ≡ expected.now → IsTrue result }
{
    word.as_str() == expected
}

/// The folder and the token, where the words are in the form of `pipe`.
fn pipe_words(words: &[String]) -> Option<(&str, &str)>
    ensures found { IfSome result (λ p. IsPipe (map string_bytes words.now) p.0.now p.1.now) }
    ensures none { IfNone result ((store admin : List ℕ) → IsPipe (map string_bytes words.now) store admin → ⊥) }
{
    let [first, store_word, store, admin_word, admin] = words else {
        return None;
    };
    if !is_word(first, "pipe") {
        return None;
    }
    if !is_word(store_word, "--store") {
        return None;
    }
    if !is_word(admin_word, "--admin") {
        return None;
    }
    if !is_token(admin.as_bytes()) {
        return None;
    }
    Some((store.as_str(), admin.as_str()))
}

fn pipe_plan(alloc: Global, store: &str, admin: &str) -> Result<Plan, NoMemory>
    ensures { IfOk result (λ plan. plan ≡ Plan.Pipe store.now admin.now) }
{
    Ok(Plan::Pipe {
        store: Text::new(String::from_str(alloc, store)?),
        admin: Text::new(String::from_str(alloc, admin)?),
    })
}

/// Reads the words that follow the program's name. `Usage` comes exactly where they are not in the form.
pub fn read_words(alloc: Global, words: &[String]) -> Result<Plan, WordsFault>
    ensures plan { IfOk result (λ plan. IsPlan (map string_bytes words.now) plan) }
    ensures memory { IsErrOf result WordsFault.NoMemory → (store : List ℕ) × (admin : List ℕ) × IsPipe (map string_bytes words.now) store admin }
    ensures usage { IsErrOf result WordsFault.Usage → (store admin : List ℕ) → IsPipe (map string_bytes words.now) store admin → ⊥ }
{
    match pipe_words(words) {
        None => Err(WordsFault::Usage),
        Some((store, admin)) => match pipe_plan(alloc, store, admin) {
            Ok(plan) => Ok(plan),
            Err(NoMemory) => Err(WordsFault::NoMemory),
        },
    }
}
