//! A graph that is written again in format 2.
ghost use Rattle.std.specs.Prelude.{◌≡◌, ℕ, List, IfOk, IfErr, OnOk, Some, string_bytes};
ghost use Rattle.fx_outside.specs.Outside.{Files, SameFiles};
ghost use Rattle.fx_seq.specs.Filling.{IsQuiet};
ghost use Rattle.fx_words.specs.declared.order.Mode.TheVariants as mode;
ghost use Rattle.fx_modes.specs.Files.{with_file};
ghost use Rattle.fx_modes.specs.Graphs.{file_shown};
ghost use Rattle.fx_modes.specs.Migrate.{migrated_name, Migration, HasMigrated, HasToldNodes};
ghost use Rattle.fx_modes.specs.Ended.{calls, Ended};
ghost use Rattle.fx_modes.specs.Steps.{GraphFetch, FilePut, LeavesFile};
ghost use Rattle.fx_modes.specs.Steps.{IsMigrationOf, MigrationCause, IsMigrationIn, IsPlainGraph, MigrationRefused};

use crate::frames::PutFailure;
use crate::graph::{GraphFailure, GraphFile, accepted_of, fetch, node_count, raw_of};
use crate::report::report_lines;
use fx_base::{Memory, Name};
use fx_group::check_names;
use fx_outside::{Depot, Library, PutFault, Sink};
use fx_text::{GraphFault, migrated};
use fx_words::{Order, Report, RunFault};
use std::alloc::Global;

/// A graph's text in format 2, and how many nodes the graph has when its groups are expanded.
#[derive(Debug, Drop)]
pub(crate) struct FormatTwo {
    pub(crate) nodes: u64,
    pub(crate) text: String,
}

/// Accepts the graph, and puts its text in format 2 under its name followed by `.v2`.
pub fn migrate<L: Library, D: Depot, O: Sink>(
    alloc: Global,
    order: &Order,
    library: &mut L,
    depot: &mut D,
    out: &mut O,
) -> Result<(), RunFault>
    ensures accepted { L.tells → OnOk result (Migration (Some order.now) (L.file library.old)) }
    ensures migrated { L.tells → D.tells
        → OnOk result (HasMigrated (Some order.now) (L.file library.old) (D.file depot.old) (D.file depot.new)) }
    ensures told { L.tells → O.tells
        → OnOk result (HasToldNodes (Some order.now) (L.file library.old) (O.written out.old) (O.written out.new)) }
    ensures quiet_library { OnOk result
        (IsQuiet (L.faults library.old) (L.faults library.new) (L.last library.old) (L.last library.new)) }
    ensures quiet_depot { OnOk result
        (IsQuiet (D.faults depot.old) (D.faults depot.new) (D.last depot.old) (D.last depot.new)) }
    ensures quiet_out { OnOk result (O.faults out.new ≡ O.faults out.old) }
    ensures ended { let last = L.last library.new in
        let fetches = calls (L.faults library.old) (L.faults library.new) (L.last library.old) last in
        let puts = calls (D.faults depot.old) (D.faults depot.new) (D.last depot.old) (D.last depot.new) in
        let writes : ℕ × ℕ = (O.faults out.old, O.faults out.new) in
        let files : Files × Files = (D.file depot.old, D.file depot.new) in
        let texts : List ℕ × List ℕ = (O.written out.old, O.written out.new) in
        IfErr result (λ e. Ended (Some mode.Migrate) L.tells D.tells O.tells (Some order.now) (L.file library.old)
        fetches puts writes files texts e) }
{
    let migration = read_migration(alloc, &order.graph, library)?;
    put_migrated(alloc, &order.graph, &migration.text, depot)?;
    report_lines(
        alloc,
        out,
        &Report::Migrate {
            nodes: migration.nodes,
        },
    )?;
    Ok(())
}

fn read_migration<L: Library>(
    alloc: Global,
    name: &Name,
    library: &mut L,
) -> Result<FormatTwo, GraphFailure>
    ensures ok { L.tells
        → IfOk result (λ m. IsMigrationOf (L.file library.old) name.now m.nodes (string_bytes m.text)) }
    ensures quiet { let last = L.last library.new in
        OnOk result (IsQuiet (L.faults library.old) (L.faults library.new) (L.last library.old) last) }
    ensures cause { L.tells → IfErr result (λ e. MigrationCause (L.file library.old) name.now e) }
    ensures fetch { let last = L.last library.new in IfErr result
        (λ e. GraphFetch name.now (L.faults library.old) (L.faults library.new) (L.last library.old) last e) }
{
    let bytes = fetch(alloc, name, library)?;
    match migration_in(alloc, &bytes) {
        Ok(migration) => Ok(migration),
        Err(GraphFault::Refused(code, path)) => Err(GraphFailure::Refused(code, path)),
        Err(GraphFault::Memory) => Err(GraphFailure::Memory),
    }
}

fn migration_in(alloc: Global, bytes: &[u8]) -> Result<FormatTwo, GraphFault>
    ensures ok { IfOk result (λ m. IsMigrationIn bytes.now m.nodes (string_bytes m.text)) }
    ensures refused { IfErr result (λ e. MigrationRefused bytes.now e) }
{
    let file = plain_graph(alloc, bytes)?;
    let text = migrated(alloc, bytes)?;
    Ok(FormatTwo {
        nodes: node_count(&file.graph),
        text,
    })
}

// The graph of the bytes. A slash in a name of format 1 is refused after every other fault.
fn plain_graph(alloc: Global, bytes: &[u8]) -> Result<GraphFile, GraphFault>
    ensures ok { IfOk result (λ file. IsPlainGraph bytes.now (file_shown file)) }
    ensures refused { IfErr result (λ e. MigrationRefused bytes.now e) }
{
    let raw = raw_of(alloc, bytes)?;
    let named = check_names(alloc, &raw);
    let file = accepted_of(alloc, raw)?;
    named?;
    Ok(file)
}

fn put_migrated<D: Depot>(
    alloc: Global,
    name: &Name,
    text: &String,
    depot: &mut D,
) -> Result<(), PutFailure>
    ensures ok { D.tells → OnOk result
        (SameFiles (with_file (migrated_name name.now) (string_bytes text.now) (D.file depot.old)) (D.file depot.new)) }
    ensures fault { let last = D.last depot.new in IfErr result
        (λ e. FilePut (migrated_name name.now) (D.faults depot.old) (D.faults depot.new) (D.last depot.old) last e) }
    ensures leaves { D.tells
        → IfErr result (λ e. LeavesFile (migrated_name name.now) e (D.file depot.old) (D.file depot.new)) }
    ensures quiet { let last = D.last depot.new in
        OnOk result (IsQuiet (D.faults depot.old) (D.faults depot.new) (D.last depot.old) last) }
{
    let file = migrated_name(alloc, name)?;
    match depot.put(alloc, file.text(), text.as_bytes()) {
        Ok(()) => Ok(()),
        Err(PutFault::Failed) => Err(PutFailure::Write(file)),
        Err(PutFault::Memory) => Err(PutFailure::Memory),
    }
}

fn migrated_name(alloc: Global, name: &Name) -> Result<Name, Memory>
    ensures { IfOk result (λ file. file ≡ migrated_name name.now) }
{
    let name = name.text();
    let file = format!(in alloc; "{name}.v2")?;
    Ok(Name::of(file))
}
