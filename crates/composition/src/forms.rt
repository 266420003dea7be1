// A pair's proof file in its one form, with its tables in words: each table is there once, in the order of its first mention.
ghost use Rattle.std.specs.Prelude.{◌≡◌, ℕ, ◌≤◌, length, Ok};
ghost use Rattle.semantics.specs.States.{product};
ghost use Rattle.semantics.specs.Derivations.{Derivation};
ghost use Rattle.derivation.specs.Tables.{work_words, written};
ghost use Rattle.derivation.specs.Reading.{proof, read_proof, loaded_word};
ghost use Rattle.joint.specs.Composing.{side_of};
ghost use Rattle.composition.specs.Refinement.{IsProof, form_read, WasAccepted, Formed};

use canonical::{MOST_FORM_BYTES, write_form};
use checker::Fault;
use derivation::reading::load;
use derivation::table::node_at;
use derivation::{MOST_NODES, ProofFile, ProofHead};
use semantics::Names;

// The head of the form, the tables that its root names, and the table of its nodes.
#[derive(Clone, Copy)]
pub(crate) struct Form {
    pub head: ProofHead,
    pub names: Names,
    pub nodes: [u64; MOST_NODES],
}

// Loads a proof file over n states, which is read without fault.
fn load_file(file: &[u8], n: u32, words: &mut [u64]) -> Form
    requires { IsProof (read_proof file.now n) }
    ensures answer { (sets relations root : ℕ) (d : Derivation) → read_proof file.now n ≡ proof sets relations root d
        → result ≡ form_read sets relations root d }
    ensures tables { words.new ≡ written (loaded_word file.now n (read_proof file.now n)) words.old }
{
    let Ok(file) = load(file, n, words) else {
        unreachable!()
    };
    let ProofFile { head, nodes } = file;
    let names = node_at(&nodes, 0).names;
    Form { head, names, nodes }
}

// How many bytes were written.
fn written_bytes(outcome: Result<u32, Fault>) -> usize
    ensures { (k : ℕ) → outcome ≡ Ok k → result ≡ k }
{
    outcome.unwrap_or(0) as usize
}

// Writes the form of an accepted pair's proof file, and loads it. A form has room in the bytes, so it is written.
pub(crate) fn load_form(handler: &[u8], proof: &[u8], n: u32, words: &mut [u64]) -> Form
    requires { WasAccepted handler.now proof.now × (n ≡ product (side_of handler.now proof.now).sizes) × (work_words ≤ length words.old) }
    ensures { Formed n (side_of handler.now proof.now) words.new result }
{
    let mut bytes = [0u8; MOST_FORM_BYTES];
    let length = written_bytes(write_form(handler, proof, &mut bytes));
    load_file(&bytes[..length], n, words)
}
