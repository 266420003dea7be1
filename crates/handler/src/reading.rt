// Reading the whole handler file, front to back.
ghost use Rattle.std.specs.Prelude.{◌≡◌, IsOk};
ghost use Rattle.handler.specs.Reading.{read_handler};
ghost use Rattle.handler.specs.Shapes.{handler_found, handler_file, terms_after};
ghost use Rattle.handler.specs.Refinement.{NodesStored};

use crate::codes::{FILL, KINDS};
use crate::head::{HeadFile, read_head};
use crate::statements::{STMT_LEVELS, stmt_walk};
use crate::{HandlerFile, HandlerSummary, MOST_STATEMENTS, StmtSummary};
use bits::FileFault;

// The summary of the file, from that of its statement: 18 at the end of the file, then 16 if there is no other fault.
fn found_of(src: &[u8], at: usize, stmt: StmtSummary) -> Result<HandlerSummary, FileFault>
    ensures { result ≡ handler_found src.now at stmt }
{
    if let Err(bit) = bits::read_fill(src, stmt.next) {
        return Err(FileFault { number: FILL, bit });
    }
    if let Some(bit) = stmt.error {
        return Err(FileFault { number: KINDS, bit });
    }
    Ok(HandlerSummary {
        at,
        end: stmt.next,
        statements: stmt.statements,
        levels: stmt.levels,
        steps: stmt.steps,
    })
}

// Reads the handler file, or finds its first fault. The nodes of its expressions are stored in `exprs`, as far as it goes.
fn read_file(src: &[u8], exprs: &mut [u32]) -> Result<HandlerFile, FileFault>
    ensures file { result ≡ handler_file (read_handler src.now) }
    ensures nodes { NodesStored exprs.old exprs.new (read_handler src.now) }
{
    let HeadFile { head, at } = read_head(src)?;
    let mut statements = [0u64; MOST_STATEMENTS];
    let stmt = stmt_walk(
        src,
        &mut statements,
        exprs,
        head.count,
        head.states,
        STMT_LEVELS,
        0,
        0,
        at,
    )?;
    let summary = found_of(src, at, stmt)?;
    Ok(HandlerFile {
        summary,
        head,
        statements,
    })
}

// The same, but after a fault all words of `exprs` are 0.
pub fn read_handler(src: &[u8], exprs: &mut [u32]) -> Result<HandlerFile, FileFault>
    ensures file { result ≡ handler_file (read_handler src.now) }
    ensures terms { exprs.new ≡ terms_after (read_handler src.now) exprs.old }
{
    let file = read_file(src, exprs);
    if file.is_err() {
        exprs.fill(0);
    }
    file
}
