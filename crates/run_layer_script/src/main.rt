//! The layers below the association, and data channels, row by row.
//!
//! Standard input has the rows of a layer behind a line `@wire`, `@state`, `@sender`, `@receiver` or `@channels`. Each row begins with a
//! line that begins with `#`, which says what the row shows; the lines behind it are commands to the layer, as its module tells. Both lines
//! are printed too, and each row begins with everything anew.
#![tactic(auto)]

mod answer;
mod channels;
mod output;
mod receiver;
mod sender;
mod state;
mod wire;
mod words;

use answer::Style;
use output::Output;
use std::io;
use words::cut;

/// Runs a row of the layer.
fn run_row(layer: &str, row: &str, output: &mut Output) {
    let (title, script) = cut(row, '\n');
    writeln!(output, "#{title}");
    output.style = Style::Values;
    match layer {
        "wire" => wire::run(script, output),
        "state" => {
            output.style = Style::Behind;
            state::run(script, output);
        }
        "sender" => {
            output.style = Style::Lines;
            sender::run(script, output);
        }
        "receiver" => receiver::run(script, output),
        "channels" => channels::run(script, output),
        _ => output.push_str("?\n"),
    }
}

/// Runs the rows behind the name of each layer.
fn run_layers(layers: &str, output: &mut Output) {
    for part in layers.split('@') {
        let (layer, rows) = cut(part, '\n');
        if !layer.is_empty() {
            writeln!(output, "@{layer}");
            for row in rows.split('#') {
                if !row.is_empty() {
                    run_row(layer, row, output);
                }
            }
        }
    }
}

fn main(rt: HostRuntime) -> anyhow::Result<()> {
    let layers = io::read_to_string(rt.alloc(), rt.reader())?;
    let mut output = Output::new(rt.alloc());
    run_layers(&layers, &mut output);
    print!(rt; "{}", output.text)?;
    Ok(output.outcome?)
}
