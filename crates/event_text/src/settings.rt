//! The lines that set starting values.

ghost use Rattle.std.specs.Prelude.{◌≡◌, ◌≤◌, ◌<◌, ◌+◌, ◌^◌, ◌∷◌, length, map, codes};
ghost use Rattle.std.specs.Prelude.{position, IfOk, IfSome, Some};
ghost use Rattle.std.specs.Prelude.{slice_get, option_copied};
ghost use Rattle.std.specs.Option.{option_map, option_and_then};
ghost use Rattle.std.specs.Str.{bytes_eq};
ghost use Rattle.std.specs.String.{string_bytes};
ghost use Rattle.std.specs.Str.Lines.{lines};
ghost use Rattle.event_text.specs.Lines.{words, said_from};
ghost use Rattle.event_text.specs.Numbers.{number_of, signed_of};
ghost use Rattle.event_text.specs.Settings.{FieldForm, field_named, setting_of, of_plain, of_element};
ghost use Rattle.event_text.specs.Settings.{plain_setting, element_setting};
ghost use Rattle.event_text.specs.Settings.{settings_in_front, past_settings, starting_rows, after_setting};
ghost use Rattle.event_text.specs.Settings.{after_settings};
ghost use Rattle.event_text.specs.ScriptText.{setting_text};

use crate::lines::{Lines, next_line};
use crate::numbers::{number, signed};
use crate::words::first_word;
use host_code::CodeField;
use jif_tree::{Row, Store};
use js_base::limits::SCRIPT_BYTES;
use js_base::{FieldId, OutOfMemory};
use std::alloc::Global;

/// What has elements that a script may set.
pub trait ScriptField {
    /// Its name, how many elements it has, whether it is an array, and what each element starts with.
    ghost form: { Self → FieldForm };

    /// Its name.
    fn name(&self) -> &str
        ensures { result.now ≡ (form self.now).name };

    /// How many elements it has, 1 for a plain field.
    fn size(&self) -> u32
        ensures { result ≡ (form self.now).size };

    /// Whether it was declared as an array.
    fn is_array(&self) -> bool
        ensures { result ≡ (form self.now).array };

    /// What each of its elements starts with where no line sets it.
    fn first(&self) -> i64
        ensures { result ≡ (form self.now).first };
}

impl ScriptField for CodeField {
    ghost use Rattle.event_text.specs.Settings.{form_of};

    ghost form = { form_of };

    fn name(&self) -> &str {
        self.name()
    }

    fn size(&self) -> u32 {
        self.size()
    }

    fn is_array(&self) -> bool {
        self.is_array()
    }

    fn first(&self) -> i64 {
        self.first()
    }
}

/// An element of a field becomes a value. A plain field has the index 0.
#[derive(Clone, Copy)]
pub struct Setting {
    pub field: FieldId,
    pub index: u32,
    pub value: i64,
}

/// The store that the fields start with where no line sets them.
pub fn starting_store<F: ScriptField>(alloc: Global, fields: &[F]) -> Result<Store, OutOfMemory>
    ensures { IfOk result (λ store. store ≡ starting_rows (map F.form fields.now)) }
{
    let mut rows = Vec::new(alloc);
    for field in fields {
        let row = Row::filled(alloc, field.first(), field.size() as usize)?;
        rows.push(row)?;
    }
    Ok(Store::of_rows(rows))
}

/// Writes into the store what the lines set, up to the first line that sets nothing, and answers what is left from it
/// on.
pub fn take_settings<'a, F: ScriptField>(
    fields: &[F],
    from: Lines<'a>,
    store: &mut Store,
) -> Lines<'a>
    requires fields { length fields.now < 2 ^ 32 }
    requires few { from.number + length from.bytes.now ≤ SCRIPT_BYTES + 1 }
    ensures store { store.new ≡ after_settings store.old
        (settings_in_front (map F.form fields.now) (said_from from.entry.number (lines from.entry.bytes.now))) }
    ensures left { said_from result.number (lines result.bytes.now)
        ≡ past_settings (map F.form fields.now) (said_from from.entry.number (lines from.entry.bytes.now)) }
    ensures few { result.number + length result.bytes.now ≤ SCRIPT_BYTES + 1 }
{
    let mut left = from;
    while let Some((line, after)) = next_line(left) {
        let Some(setting) = setting_of(fields, line.bytes) else {
            return left;
        };
        store.set_element(setting.field, i64::from(setting.index), setting.value);
        left = after;
    }
    left
}

/// The line that sets an element of a field: `set FIELD VALUE`, or `set ARRAY INDEX VALUE` where it is an array.
pub fn setting_line<F: ScriptField>(
    alloc: Global,
    field: &F,
    index: usize,
    value: i64,
) -> Result<String, OutOfMemory>
    ensures { IfOk result (λ line. string_bytes line ≡ setting_text (F.form field.now) index value) }
{
    let name = field.name();
    if field.is_array() {
        Ok(format!(in alloc; "set {name} {index} {value}")?)
    } else {
        Ok(format!(in alloc; "set {name} {value}")?)
    }
}

/// The setting that a line says.
fn setting_of<F: ScriptField>(fields: &[F], line: &[u8]) -> Option<Setting>
    requires { length fields.now < 2 ^ 32 }
    ensures { result ≡ setting_of (map F.form fields.now) (words line.now) }
{
    let (verb, operands) = first_word(line)?;
    if verb != b"set".as_slice() {
        return None;
    }
    setting_said(fields, operands)
}

/// The setting that `set` and these operands say.
fn setting_said<F: ScriptField>(fields: &[F], operands: &[u8]) -> Option<Setting>
    requires { length fields.now < 2 ^ 32 }
    ensures { result ≡ setting_of (map F.form fields.now) (codes "set" ∷ words operands.now) }
{
    let (name, rest) = first_word(operands)?;
    let (second, rest) = first_word(rest)?;
    let Some((third, rest)) = first_word(rest) else {
        return plain_setting(fields, name, second);
    };
    if first_word(rest).is_some() {
        return None;
    }
    element_setting(fields, name, second, third)
}

/// The setting of a plain field of the name to the value that a word writes.
fn plain_setting<F: ScriptField>(fields: &[F], name: &[u8], value: &[u8]) -> Option<Setting>
    requires { length fields.now < 2 ^ 32 }
    ensures { result ≡ plain_setting (map F.form fields.now) (field_named (map F.form fields.now) name.now)
        (signed_of value.now) }
{
    let place = field_named(fields, name)?;
    let value = signed(value)?;
    of_plain(place, value, fields.get(place)?)
}

/// The setting of a field that is no array.
fn of_plain<F: ScriptField>(place: usize, value: i64, field: &F) -> Option<Setting>
    requires { place < 2 ^ 32 }
    ensures { result ≡ of_plain place value (F.form field.now) }
{
    if field.is_array() {
        return None;
    }
    Some(Setting {
        field: FieldId(place as u32),
        index: 0,
        value,
    })
}

/// The setting of an element of an array of the name, at the index that a word writes, to the value that another
/// writes.
fn element_setting<F: ScriptField>(
    fields: &[F],
    name: &[u8],
    index: &[u8],
    value: &[u8],
) -> Option<Setting>
    requires { length fields.now < 2 ^ 32 }
    ensures { result ≡ element_setting (map F.form fields.now) (field_named (map F.form fields.now) name.now)
        (number_of index.now) (signed_of value.now) }
{
    let place = field_named(fields, name)?;
    let index = number(index)?;
    let value = signed(value)?;
    of_element(place, index, value, fields.get(place)?)
}

/// The setting of an element that an array has.
fn of_element<F: ScriptField>(place: usize, index: u64, value: i64, field: &F) -> Option<Setting>
    requires { place < 2 ^ 32 }
    ensures { result ≡ of_element place index value (F.form field.now) }
{
    if !field.is_array() {
        return None;
    }
    if index >= u64::from(field.size()) {
        return None;
    }
    Some(Setting {
        field: FieldId(place as u32),
        index: index as u32,
        value,
    })
}

/// The place of the first field of the name.
fn field_named<F: ScriptField>(fields: &[F], name: &[u8]) -> Option<usize>
    ensures place { result ≡ field_named (map F.form fields.now) name.now }
    ensures within { IfSome result (λ place. place < length fields.now) }
{
    place_of_name(fields, name)
}

/// The first place of the name.
fn place_of_name<F: ScriptField>(fields: &[F], name: &[u8]) -> Option<usize>
    ensures place { result ≡ position (λ (field : F). bytes_eq name.now (F.form field).name) fields.now }
    ensures within { IfSome result (λ place. place < length fields.now) }
{
    fields
        .iter()
        .position(|field| name == field.name().as_bytes())
}
