// What the router shows.
ghost use Rattle.std.specs.Prelude.{◌≡◌, ◌++◌, ◌∷◌, [], map};
ghost use Rattle.std.specs.List.{flat_map};
ghost use Rattle.cm_text.specs.ScreenBytes.{end_of_line};
ghost use Rattle.cm_io.specs.Pieces.{shown_lines};
ghost use Rattle.cm_io.specs.Writer.{Writes};
ghost use Rattle.eg_router.specs.Configuration.{address_lines, address_word, blank, configuration, configuration_of, description_lines, description_word, exit_word, interface_line, interface_word, quoted_byte, reply, shutdown_lines};

use crate::{Command, Interface, Interfaces, Shown};
use cm_io::{Sink, Writer};
use cm_text::{Name, end_of_line};

/// Writes the lines that a command shows, which SHOW has.
#[tactic(auto, using(cm_io::proofs::Texts::lines), unfolding(crate::specs::Configuration::version))]
pub fn put_reply<S: Sink>(command: &Command, interfaces: &Interfaces, out: &mut Writer<'_, S>)
    ensures { Writes S.Sink out.old out.new (shown_lines (reply command.now interfaces.now)) }
{
    match command {
        Command::Show(Shown::Interfaces) => put_interfaces(interfaces.as_slice(), out),
        Command::Show(Shown::Configuration) => put_configuration(interfaces.as_slice(), out),
        Command::Show(Shown::Version) => out.put_line(b"The router of Lughvero"),
        _ => {}
    }
}

// Writes the configuration.
#[tactic(auto, using(cm_io::proofs::Texts::each_lines), unfolding(crate::specs::Configuration::configuration))]
fn put_configuration<S: Sink>(interfaces: &[Interface], out: &mut Writer<'_, S>)
    ensures { Writes S.Sink out.old out.new (shown_lines (configuration interfaces.now)) }
{
    for it in interfaces {
        put_interface(it, out);
    }
}

// Writes the lines of an interface.
fn put_interface<S: Sink>(it: &Interface, out: &mut Writer<'_, S>)
    ensures { Writes S.Sink out.old out.new (shown_lines (configuration_of it.now)) }
{
    put_head(&it.name, out);
    put_address(&it.address, out);
    put_description(&it.description, out);
    put_shutdown(it.is_down, out);
    put_exit(out);
}

#[tactic(auto, using(cm_io::proofs::Texts::texts))]
fn put_head<S: Sink>(name: &Name, out: &mut Writer<'_, S>)
    ensures { Writes S.Sink out.old out.new ((interface_word ++ name.now) ++ end_of_line) }
{
    out.put(interface_word());
    out.put(name.as_bytes());
    out.put(end_of_line());
}

#[tactic(auto, using(cm_io::proofs::Texts::texts, cm_io::proofs::Texts::lines), unfolding(crate::specs::Configuration::address_lines))]
fn put_address<S: Sink>(text: &Name, out: &mut Writer<'_, S>)
    ensures { Writes S.Sink out.old out.new (shown_lines (address_lines text.now)) }
{
    let text = text.as_bytes();
    if !text.is_empty() {
        out.put(address_word());
        out.put(text);
        out.put(end_of_line());
    }
}

// Writes a description in quotes, a quote in it twice.
#[tactic(auto, using(cm_io::proofs::Texts::texts, cm_io::proofs::Texts::lines), unfolding(crate::specs::Configuration::quote, crate::specs::Configuration::description_lines))]
fn put_description<S: Sink>(text: &Name, out: &mut Writer<'_, S>)
    ensures { Writes S.Sink out.old out.new (shown_lines (description_lines text.now)) }
{
    let text = text.as_bytes();
    if !text.is_empty() {
        out.put(description_word());
        put_quoted_bytes(text, out);
        out.put(b"\"");
        out.put(end_of_line());
    }
}

#[tactic(auto, using(cm_io::proofs::Texts::lines), unfolding(crate::specs::Configuration::shutdown_word, crate::specs::Configuration::shutdown_lines))]
fn put_shutdown<S: Sink>(is_down: bool, out: &mut Writer<'_, S>)
    ensures { Writes S.Sink out.old out.new (shown_lines (shutdown_lines is_down)) }
{
    if is_down {
        out.put_line(b" shutdown");
    }
}

#[tactic(auto, using(cm_io::proofs::Texts::writes_line), unfolding(crate::specs::Configuration::exit_word))]
fn put_exit<S: Sink>(out: &mut Writer<'_, S>)
    ensures { Writes S.Sink out.old out.new (shown_lines (exit_word ∷ [])) }
{
    out.put_line(b"exit");
}

#[tactic(auto, using(cm_io::proofs::Texts::each))]
fn put_quoted_bytes<S: Sink>(text: &[u8], out: &mut Writer<'_, S>)
    ensures { Writes S.Sink out.old out.new (flat_map quoted_byte text.now) }
{
    for byte in text {
        put_quoted_byte(*byte, out);
    }
}

#[tactic(auto, unfolding(crate::specs::Configuration::quoted_byte))]
fn put_quoted_byte<S: Sink>(byte: u8, out: &mut Writer<'_, S>)
    ensures { Writes S.Sink out.old out.new (quoted_byte byte) }
{
    if byte == b'"' {
        out.put(b"\"\"");
    } else {
        out.put(&[byte]);
    }
}

// Writes a line for each interface.
#[tactic(auto, using(cm_io::proofs::Texts::each_line))]
fn put_interfaces<S: Sink>(interfaces: &[Interface], out: &mut Writer<'_, S>)
    ensures { Writes S.Sink out.old out.new (shown_lines (map interface_line interfaces.now)) }
{
    for it in interfaces {
        put_interface_line(it, out);
    }
}

// Writes the line of an interface: `ETH0 up 10.0.0.1 by the door`.
#[tactic(auto, using(cm_io::proofs::Texts::texts), unfolding(crate::specs::Configuration::interface_line, crate::specs::Configuration::up_word, crate::specs::Configuration::down_word))]
fn put_interface_line<S: Sink>(it: &Interface, out: &mut Writer<'_, S>)
    ensures { Writes S.Sink out.old out.new (interface_line it.now ++ end_of_line) }
{
    let address = it.address.as_bytes();
    let description = it.description.as_bytes();
    out.put(it.name.as_bytes());
    out.put(if it.is_down { b" down" } else { b" up" });
    out.put(if address.is_empty() { b"" } else { blank() });
    out.put(address);
    out.put(if description.is_empty() { b"" } else { blank() });
    out.put(description);
    out.put(end_of_line());
}

// Texts before what is not fixed.
#[tactic(auto, unfolding(crate::specs::Configuration::blank))]
fn blank() -> &'static [u8]
    ensures { result.now ≡ blank }
{
    b" "
}

#[tactic(auto, unfolding(crate::specs::Configuration::interface_word))]
fn interface_word() -> &'static [u8]
    ensures { result.now ≡ interface_word }
{
    b"interface "
}

#[tactic(auto, unfolding(crate::specs::Configuration::address_word))]
fn address_word() -> &'static [u8]
    ensures { result.now ≡ address_word }
{
    b" address "
}

#[tactic(auto, unfolding(crate::specs::Configuration::description_word))]
fn description_word() -> &'static [u8]
    ensures { result.now ≡ description_word }
{
    b" description \""
}
