// The statements of a handler as a table in file order, one word for each.
ghost use Rattle.std.specs.Prelude.{◌≡◌, ◌^◌, ◌<◌, length, set};
ghost use Rattle.handler.specs.StatementTable.{statement_word, statement_in};

// A statement as the table keeps it: its code, an assignment's variable, the number of the statement after its first part (after
// itself if it has no parts), the number of its expression's first node (0 if it has no expression), and its first bit in the file.
#[derive(Clone, Copy)]
pub struct Statement {
    pub code: u32,
    pub target: u32,
    pub after: u32,
    pub expr: u32,
    pub bit: usize,
}

// A statement as one word.
fn word_of(s: Statement) -> u64
    requires { s.bit < 2 ^ 32 }
    ensures { result ≡ statement_word s }
{
    let place = s.expr as u64 + 2048 * (s.bit as u64);
    s.code as u64 + 8 * (s.target as u64 + 4 * (s.after as u64 + 128 * place))
}

// Stores a statement as number j of a table.
pub(crate) fn store_statement(table: &mut [u64], j: u32, s: Statement)
    requires { (j < length table.old) × (s.bit < 2 ^ 32) }
    ensures { table.new ≡ set table.old j (statement_word s) }
{
    table[j as usize] = word_of(s);
}

// Statement j of a table. Past the end the word is 0.
pub fn statement_at(table: &[u64], j: usize) -> Statement
    ensures { result ≡ statement_in table.now j }
{
    let word = table.get(j).copied().unwrap_or(0);
    Statement {
        code: (word % 8) as u32,
        target: (word / 8 % 4) as u32,
        after: (word / 32 % 128) as u32,
        expr: (word / 4096 % 2048) as u32,
        bit: (word / 8388608) as usize,
    }
}
