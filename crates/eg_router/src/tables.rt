// The keyword tables of the router, each entry with its code and the node after it.
ghost use Rattle.std.specs.Prelude.{◌≡◌, ◌≤◌, IfOk, length};
ghost use Rattle.cm_text.specs.declared.name.TheConstants.{NAME_LIMIT};
ghost use Rattle.eg_router.specs.Tables.{router_tables, word};

use crate::grammar::{
    ADDRESS, CONFIGURE, DESCRIPTION, ENABLE, END, EXIT, INTERFACE, LINE_END, NO, ROUTER, RUNNING,
    SHOW, SHUTDOWN, VERSION,
};
use cm_io::NoMemory;
use cm_tables::{Entry, Table};
use std::alloc::Global;

// In the order of the modes; then after CONFIGURE, SHOW, NO where interfaces are made, and NO in the mode of one.
#[tactic(auto, unfolding(crate::specs::Tables::router_tables, cm_tables::specs::Order::table_fault))]
pub(crate) fn tables(alloc: Global) -> Result<Vec<Table>, NoMemory>
    ensures { IfOk result (λ tables. tables.items ≡ router_tables) }
{
    Ok(vec![in alloc;
        Table::of(vec![in alloc;
            word("ENABLE", ENABLE, LINE_END, "Turn on privileged mode"),
            word("EXIT", EXIT, LINE_END, "Exit current mode"),
            word("SHOW", SHOW, 7, "Show the system"),
        ]?),
        Table::of(vec![in alloc;
            word("CONFIGURE", CONFIGURE, 6, "Configure the router"),
            word("EXIT", EXIT, LINE_END, "Exit current mode"),
            word("SHOW", SHOW, 7, "Show the system"),
        ]?),
        Table::of(vec![in alloc;
            word("END", END, LINE_END, "End current mode"),
            word("EXIT", EXIT, LINE_END, "Exit current mode"),
            word("INTERFACE", INTERFACE, 11, "Select an interface"),
            word("NO", NO, 8, "Negate a command"),
            word("ROUTER", ROUTER, 12, "Start a routing process"),
        ]?),
        Table::of(vec![in alloc;
            word("ADDRESS", ADDRESS, 14, "Set the IP address"),
            word("DESCRIPTION", DESCRIPTION, 13, "Describe the interface"),
            word("END", END, LINE_END, "End current mode"),
            word("EXIT", EXIT, LINE_END, "Exit current mode"),
            word("NO", NO, 10, "Negate a command"),
            word("SHUTDOWN", SHUTDOWN, LINE_END, "Shut the interface down"),
        ]?),
        Table::of(vec![in alloc;
            word("END", END, LINE_END, "End current mode"),
            word("EXIT", EXIT, LINE_END, "Exit current mode"),
        ]?),
        Table::of(vec![in alloc; word("TERMINAL", CONFIGURE, LINE_END, "From the terminal")]?),
        Table::of(vec![in alloc;
            word("INTERFACES", INTERFACE, LINE_END, "Interface status"),
            word("RUNNING-CONFIG", RUNNING, LINE_END, "The configuration"),
            word("VERSION", VERSION, LINE_END, "System version"),
        ]?),
        Table::of(vec![in alloc; word("INTERFACE", INTERFACE, 9, "Remove an interface")]?),
        Table::of(vec![in alloc;
            word("ADDRESS", ADDRESS, LINE_END, "Take the IP address"),
            word("DESCRIPTION", DESCRIPTION, LINE_END, "Take the description"),
            word("SHUTDOWN", SHUTDOWN, LINE_END, "Take the interface up"),
        ]?),
    ]?)
}

// A keyword, and what `?` says of it.
fn word(text: &str, code: u16, next: u16, help: &str) -> Entry
    requires text { length text.now ≤ NAME_LIMIT }
    requires help { length help.now ≤ NAME_LIMIT }
    ensures { result ≡ word text.now code next help.now }
{
    Entry::new(text, code, next).with_help(help)
}
