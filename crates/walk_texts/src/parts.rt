// The parts of lines.

ghost use Rattle.std.specs.Prelude.{◌≡◌, ◌++◌, OnOk, decimal, false, map};
ghost use Rattle.std.specs.List.{list_any};
ghost use Rattle.frac_core.specs.Fraction.{is_wide};
ghost use Rattle.decimal_json.specs.Text.{with_commas};
ghost use Rattle.process_core.specs.Seen.{seen_kinds};
ghost use Rattle.process_texts.specs.Given.{is_wide_value};
ghost use Rattle.process_texts.specs.Texts.{comma_before, fraction_text, name_text, state_text, value_text};
ghost use Rattle.walk_texts.specs.Lines.{kinds_text, label_text};

use bridge_io::Text;
use frac_core::Frac;
use itoa::Buffer;
use op_trees::Value;
use process_core::{Bad, State};
use process_texts::name_text;
use std::alloc::{AllocError, Global};

/// Writes a number.
pub(crate) fn push_number(out: &mut Vec<u8>, n: usize) -> Result<(), AllocError>
    ensures { OnOk result (out.new.items ≡ out.old.items ++ decimal n) }
{
    out.extend_from_slice(Buffer::new().format(n).as_bytes())
}

/// Writes a fraction.
pub(crate) fn push_fraction(out: &mut Vec<u8>, x: Frac) -> Result<(), AllocError>
    ensures text { OnOk result (out.new.items ≡ out.old.items ++ fraction_text x) }
    ensures narrow { is_wide x ≡ false }
{
    let mut buffer = Buffer::new();
    out.extend_from_slice(buffer.format(x.num()).as_bytes())?;
    if x.den() != 1 {
        out.extend_from_slice(b"/")?;
        out.extend_from_slice(buffer.format(x.den()).as_bytes())?;
    }
    Ok(())
}

/// Writes a value.
fn push_value(out: &mut Vec<u8>, value: Value) -> Result<(), AllocError>
    ensures text { OnOk result (out.new.items ≡ out.old.items ++ value_text value) }
    ensures narrow { is_wide_value value ≡ false }
{
    match value {
        Value::Truth(true) => out.extend_from_slice(b"true"),
        Value::Truth(false) => out.extend_from_slice(b"false"),
        Value::Number(x) => push_fraction(out, x),
    }
}

/// Writes a comma before each part but the first.
fn push_comma(out: &mut Vec<u8>, i: usize) -> Result<(), AllocError>
    ensures { OnOk result (out.new.items ≡ out.old.items ++ comma_before i) }
{
    if i > 0 {
        out.extend_from_slice(b",")?;
    }
    Ok(())
}

/// Writes values with commas between them.
fn push_values(out: &mut Vec<u8>, values: &[Value]) -> Result<(), AllocError>
    ensures text { OnOk result (out.new.items ≡ out.old.items ++ with_commas (map value_text values.now)) }
    ensures narrow { OnOk result (list_any is_wide_value values.now ≡ false) }
{
    for (i, value) in values.iter().enumerate() {
        push_comma(out, i)?;
        push_value(out, *value)?;
    }
    Ok(())
}

/// Writes a state.
pub(crate) fn push_state(out: &mut Vec<u8>, s: &State) -> Result<(), AllocError>
    ensures text { OnOk result (out.new.items ≡ out.old.items ++ state_text s.now.values) }
    ensures narrow { OnOk result (list_any is_wide_value s.now.values ≡ false) }
{
    out.extend_from_slice(b"(")?;
    push_values(out, s.values.as_slice())?;
    out.extend_from_slice(b")")
}

/// Writes a name.
pub(crate) fn push_name(alloc: Global, out: &mut Vec<u8>, name: &str) -> Result<(), AllocError>
    ensures { OnOk result (out.new.items ≡ out.old.items ++ name_text name.now) }
{
    let text = name_text(alloc, name)?;
    out.extend_from_slice(text.as_str().as_bytes())
}

/// Writes a label, or that it is missing.
pub(crate) fn push_label(
    alloc: Global,
    out: &mut Vec<u8>,
    label: &Option<Text>,
) -> Result<(), AllocError>
    ensures { OnOk result (out.new.items ≡ out.old.items ++ label_text label.now) }
{
    match label {
        Some(name) => push_name(alloc, out, name.as_str()),
        None => out.extend_from_slice(b"-"),
    }
}

/// The kinds of faults, with commas between them.
pub(crate) fn kinds_text(bad: Bad) -> &'static str
    ensures { result.now ≡ kinds_text (seen_kinds bad) }
{
    match (bad.undef, bad.range, bad.weight) {
        (false, false, false) => "",
        (false, false, true) => "weight",
        (false, true, false) => "range",
        (false, true, true) => "range,weight",
        (true, false, false) => "undef",
        (true, false, true) => "undef,weight",
        (true, true, false) => "undef,range",
        (true, true, true) => "undef,range,weight",
    }
}
