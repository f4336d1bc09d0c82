// The keyword tables of the EXEC.
ghost use Rattle.std.specs.Prelude.{◌≡◌, IfOk};
ghost use Rattle.ex_grammar.specs.Tables.{build_entries, command_entries, directory_entries, exec_tables, file_entries, flagged, set_entries, switch_entries, topic_entries};

use crate::code::{
    AFTER, APPEND, BEFORE, BUILD, CONNECT, COPIES, COPY, DEFINE, DELETE, DELETED, DIRECTORY,
    DIRECTORY_TOPIC, EXPUNGE, FILE, FORMS, GENERATION_RETENTION_COUNT, GENERATIONS, INFORMATION,
    JOBNAME, LOGICAL_NAMES, LOGOUT, NO_KEYWORD, NOTE, OUTPUT_REQUESTS, PRINT, READ, REMARK, RENAME,
    SET, SINCE, TAKE, TYPE, UNDELETE, VERSION,
};
use crate::node::LINE_END;
use cm_io::NoMemory;
use cm_tables::{Entry, Flag, Table};
use std::alloc::Global;

// The table of the commands.
pub(crate) const COMMAND_TABLE: u16 = 0;

// Where TYPE is in the table of the commands.
pub(crate) const TYPE_POSITION: u16 = 19;

// The table of what INFORMATION tells about.
pub(crate) const TOPIC_TABLE: u16 = 1;

// The table of the subcommands of DIRECTORY.
pub(crate) const DIRECTORY_TABLE: u16 = 2;

// The table of the subcommands of BUILD.
pub(crate) const BUILD_TABLE: u16 = 3;

// The table of the switches of PRINT.
pub(crate) const SWITCH_TABLE: u16 = 4;

// The table of what SET sets something of.
pub(crate) const SET_TABLE: u16 = 5;

// The table of what SET FILE sets.
pub(crate) const FILE_TABLE: u16 = 6;

#[tactic(auto, unfolding(crate::specs::Tables::exec_tables))]
pub(crate) fn tables(alloc: Global) -> Result<Vec<Table>, NoMemory>
    ensures { IfOk result (λ tables. tables.items ≡ exec_tables) }
{
    let mut tables = vec![in alloc; commands(alloc)?]?;
    tables.push(topics(alloc)?)?;
    tables.push(directory_subcommands(alloc)?)?;
    tables.push(build_subcommands(alloc)?)?;
    tables.push(switches(alloc)?)?;
    tables.push(set_words(alloc)?)?;
    tables.push(file_words(alloc)?)?;
    Ok(tables)
}

#[tactic(auto, using(crate::proofs::Faultless::commands_have_no_fault))]
fn commands(alloc: Global) -> Result<Table, NoMemory>
    ensures { IfOk result (λ table. table ≡ command_entries) }
{
    Ok(Table::of(command_entries(alloc)?))
}

#[tactic(auto, using(crate::proofs::Faultless::topics_have_no_fault))]
fn topics(alloc: Global) -> Result<Table, NoMemory>
    ensures { IfOk result (λ table. table ≡ topic_entries) }
{
    Ok(Table::of(topic_entries(alloc)?))
}

#[tactic(auto, using(crate::proofs::Faultless::directory_subcommands_have_no_fault))]
fn directory_subcommands(alloc: Global) -> Result<Table, NoMemory>
    ensures { IfOk result (λ table. table ≡ directory_entries) }
{
    Ok(Table::of(directory_entries(alloc)?))
}

#[tactic(auto, using(crate::proofs::Faultless::build_subcommands_have_no_fault))]
fn build_subcommands(alloc: Global) -> Result<Table, NoMemory>
    ensures { IfOk result (λ table. table ≡ build_entries) }
{
    Ok(Table::of(build_entries(alloc)?))
}

#[tactic(auto, using(crate::proofs::Faultless::switches_have_no_fault))]
fn switches(alloc: Global) -> Result<Table, NoMemory>
    ensures { IfOk result (λ table. table ≡ switch_entries) }
{
    Ok(Table::of(switch_entries(alloc)?))
}

#[tactic(auto, using(crate::proofs::Faultless::set_words_have_no_fault))]
fn set_words(alloc: Global) -> Result<Table, NoMemory>
    ensures { IfOk result (λ table. table ≡ set_entries) }
{
    Ok(Table::of(set_entries(alloc)?))
}

#[tactic(auto, using(crate::proofs::Faultless::file_words_have_no_fault))]
fn file_words(alloc: Global) -> Result<Table, NoMemory>
    ensures { IfOk result (λ table. table ≡ file_entries) }
{
    Ok(Table::of(file_entries(alloc)?))
}

#[tactic(auto, unfolding(crate::specs::Tables::command_entries))]
fn command_entries(alloc: Global) -> Result<Vec<Entry>, NoMemory>
    ensures { IfOk result (λ entries. entries.items ≡ command_entries) }
{
    Ok(vec![in alloc;
        Entry::new("APPEND", APPEND, 6),
        Entry::new("BUILD", BUILD, 33),
        Entry::new("CONNECT", CONNECT, 17),
        Entry::new("COPY", COPY, 1),
        Entry::new("DEFINE", DEFINE, 28),
        Entry::new("DELETE", DELETE, 13),
        Entry::new("DIRECTORY", DIRECTORY, 23),
        Entry::new("EXPUNGE", EXPUNGE, 35),
        Entry::new("INFORMATION", INFORMATION, 26),
        flagged(Entry::new("KJOB", LOGOUT, LINE_END), Flag::Invisible),
        flagged(Entry::new("L", NO_KEYWORD, LINE_END), Flag::NoRecognise),
        flagged(Entry::new("LO", NO_KEYWORD, LINE_END), Flag::NoRecognise),
        Entry::new("LOGOUT", LOGOUT, LINE_END),
        Entry::new("PRINT", PRINT, 37),
        Entry::new("REMARK", REMARK, 45),
        Entry::new("RENAME", RENAME, 10),
        Entry::new("SET", SET, 51),
        flagged(
            Entry::new("T", NO_KEYWORD, LINE_END),
            Flag::Short(TYPE_POSITION)
        ),
        Entry::new("TAKE", TAKE, 21),
        Entry::new("TYPE", TYPE, 19),
        Entry::new("UNDELETE", UNDELETE, 15),
    ]?)
}

#[tactic(auto, unfolding(crate::specs::Tables::topic_entries))]
fn topic_entries(alloc: Global) -> Result<Vec<Entry>, NoMemory>
    ensures { IfOk result (λ entries. entries.items ≡ topic_entries) }
{
    Ok(vec![in alloc;
        Entry::new("DIRECTORY", DIRECTORY_TOPIC, LINE_END),
        Entry::new("LOGICAL-NAMES", LOGICAL_NAMES, LINE_END),
        Entry::new("OUTPUT-REQUESTS", OUTPUT_REQUESTS, LINE_END),
        Entry::new("VERSION", VERSION, LINE_END),
    ]?)
}

#[tactic(auto, unfolding(crate::specs::Tables::directory_entries))]
fn directory_entries(alloc: Global) -> Result<Vec<Entry>, NoMemory>
    ensures { IfOk result (λ entries. entries.items ≡ directory_entries) }
{
    Ok(vec![in alloc;
        Entry::new("BEFORE", BEFORE, 47),
        Entry::new("DELETED", DELETED, LINE_END),
        Entry::new("READ", READ, LINE_END),
        Entry::new("SINCE", SINCE, 47),
    ]?)
}

#[tactic(auto, unfolding(crate::specs::Tables::build_entries))]
fn build_entries(alloc: Global) -> Result<Vec<Entry>, NoMemory>
    ensures { IfOk result (λ entries. entries.items ≡ build_entries) }
{
    Ok(vec![in alloc; Entry::new("GENERATIONS", GENERATIONS, 49)]?)
}

#[tactic(auto, unfolding(crate::specs::Tables::switch_entries))]
fn switch_entries(alloc: Global) -> Result<Vec<Entry>, NoMemory>
    ensures { IfOk result (λ entries. entries.items ≡ switch_entries) }
{
    Ok(vec![in alloc;
        Entry::with_value("AFTER", AFTER, 40),
        Entry::with_value("COPIES", COPIES, 41),
        Entry::with_value("FORMS", FORMS, 42),
        Entry::with_value("JOBNAME", JOBNAME, 43),
        Entry::with_value("NOTE", NOTE, 44),
    ]?)
}

#[tactic(auto, unfolding(crate::specs::Tables::set_entries))]
fn set_entries(alloc: Global) -> Result<Vec<Entry>, NoMemory>
    ensures { IfOk result (λ entries. entries.items ≡ set_entries) }
{
    Ok(vec![in alloc; Entry::new("FILE", FILE, 52)]?)
}

#[tactic(auto, unfolding(crate::specs::Tables::file_entries))]
fn file_entries(alloc: Global) -> Result<Vec<Entry>, NoMemory>
    ensures { IfOk result (λ entries. entries.items ≡ file_entries) }
{
    Ok(vec![in alloc; Entry::new("GENERATION-RETENTION-COUNT", GENERATION_RETENTION_COUNT, 53)]?)
}

// The same keyword, which takes part in the look-up in this way.
fn flagged(keyword: Entry, flag: Flag) -> Entry
    ensures { result ≡ flagged keyword flag }
{
    Entry { flag, ..keyword }
}
