// The fields of the form, put one after the other: the two counts, the tables, copied from the file, and the nodes.
ghost use Rattle.std.specs.Prelude.{◌≡◌, map, ◌+◌, ◌*◌, ◌≤◌, ◌^◌, min, length, take};
ghost use Rattle.states.specs.Sets.{capacity};
ghost use Rattle.derivation.specs.Tables.{most_tables};
ghost use Rattle.writer.specs.Packing.{part, width_of, put_parts};
ghost use Rattle.form.specs.Form.{parts_of};
ghost use Rattle.canonical.specs.Nodes.{held_in};
ghost use Rattle.canonical.specs.Refinement.{Within, members_of, Room, Small, parts_in};

use super::nodes::{nodes_width, write_nodes};
use super::tables::{HEAD_BITS, relation_run, set_run, table_cursor};
use super::{Naming, Numbering, Run};
use derivation::MOST_TABLES;
use writer::{copy, put};

// Writes the tables of a run that the first `count` entries of a list name, in its order.
fn write_tables(src: &[u8], run: Run, order: &[u64], count: usize, out: &mut [u8], at: usize)
    requires { Within run × (count ≤ length order.now) × (count ≤ most_tables) × Room out.old at (run.width * count) }
    ensures { out.new ≡ put_parts out.old at
        (map (part run.width) (members_of src.now run (take count order.now))) }
{
    for k in 0..count {
        let table = order[k] as usize % MOST_TABLES;
        copy(
            src,
            table_cursor(run, table),
            out,
            at + run.width * k,
            run.width,
        );
    }
}

// Writes the tables of one kind, in their order in the form.
fn write_named(src: &[u8], run: Run, named: Naming, out: &mut [u8], at: usize)
    requires { Within run × (named.count ≤ most_tables) × Room out.old at (run.width * named.count) }
    ensures { out.new ≡ put_parts out.old at
        (map (part run.width) (members_of src.now run (take named.count named.order))) }
{
    let order = named.order;
    write_tables(src, run, &order, named.count, out, at);
}

// How many bits the form has.
pub(crate) fn form_bits(n: usize, m: Numbering, nodes: &[u64], count: usize) -> usize
    requires { (n ≤ capacity) × (m.sets.count ≤ most_tables) × (m.relations.count ≤ most_tables) }
    ensures { (result ≡ 10 + n * m.sets.count + n * n * m.relations.count + width_of (held_in parts_of (take (min count 127) nodes.now)))
        × (result ≤ 2 ^ 21) }
{
    let sets = m.sets;
    let relations = m.relations;
    HEAD_BITS + n * sets.count + n * n * relations.count + nodes_width(nodes, count)
}

// Writes the fields of the form: the counts, the sets, the relations and the nodes.
pub(crate) fn write_fields(
    src: &[u8],
    n: usize,
    tables: usize,
    nodes: &[u64],
    count: usize,
    m: Numbering,
    out: &mut [u8],
)
    requires { Small n tables m × Room out.old 0 (width_of (parts_in src.now n tables m (take (min count 127) nodes.now))) }
    ensures { out.new ≡ put_parts out.old 0 (parts_in src.now n tables m (take (min count 127) nodes.now)) }
{
    let sets = m.sets;
    let relations = m.relations;
    let relations_from = HEAD_BITS + n * sets.count;
    let nodes_from = relations_from + n * n * relations.count;
    put(
        out,
        0,
        HEAD_BITS,
        sets.count as u64 * 32 + relations.count as u64,
    );
    write_named(src, set_run(n), sets, out, HEAD_BITS);
    write_named(src, relation_run(n, tables), relations, out, relations_from);
    let set_names = sets.names;
    let relation_names = relations.names;
    write_nodes(nodes, count, &set_names, &relation_names, out, nodes_from);
}
