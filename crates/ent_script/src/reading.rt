ghost use Rattle.std.specs.Prelude.{◌≡◌, ◌<◌, ◌≤◌, length, map, option_map, IfOk, IfErr};
ghost use Rattle.std.specs.Prelude.{string_bytes, ◌∷◌, ℕ, List, Some, Ok, false, codes};
ghost use Rattle.std.specs.Prelude.{IfSome};
ghost use Rattle.std.specs.Bool.{MatchBool};
ghost use Rattle.json.specs.Json.{value, members};
ghost use Rattle.json.specs.Token.{Token as SpecToken, begin_object};
ghost use Rattle.serde_json.specs.Data.{Data, Members, no_members};
ghost use Rattle.serde_json.specs.Find.{get, get_member};
ghost use Rattle.serde_json.specs.Read.{of_members, converted, read};
ghost use Rattle.ent_script.specs.Streaming.{begins_object, frames_of, ran_out};
ghost use Rattle.ent_script.specs.Front.{IsFront, ReadsFront};
ghost use Rattle.ent_script.specs.declared.read_fault.ReadFault.TheVariants.{Memory};
ghost use Rattle.serde_json.specs.View.{view};
ghost use Rattle.ent_script.specs.Json.{whole_within as whole_of};
ghost use Rattle.ent_script.specs.Ranges.{IsScript};
ghost use Rattle.ent_script.specs.Reading.{or_absent, new_name, component_at};
ghost use Rattle.ent_script.specs.Reading.{format_of, heading_of, numbered, in_script, script_of};
ghost use Rattle.ent_script.specs.Reading.{script_of_text};
ghost use Rattle.ent_script.specs.Reading.{ReadsAs, ReadsList};
ghost use Rattle.ent_script.specs.Sizes.{most_components};

use crate::cause::ScriptCause;
use crate::divided::script_of_share;
use crate::elements::{are_keys_among, members, name, whole_within};
use crate::format::Format;
use crate::frame::Frame;
use crate::frames::frames;
use crate::front::Front;
use crate::heading::Heading;
use crate::names::Names;
use crate::passing::pass_value;
use crate::read_fault::ReadFault;
use crate::script::Script;
use crate::share::Share;
use crate::top::read_top;
use ent_alloc::Limits;
use json::{Reader, Scratch, Token};
use serde_json::Value;
use std::alloc::Global;
use std::thread::Threads;

/// The whole number in this range that a part is, or this one if the part is absent.
fn number_or(part: Option<&Value>, absent: u32, low: u32, high: u32) -> Option<u32>
    ensures { result ≡ or_absent absent (whole_of low high)
        (option_map (λ v. view v.now) part.entry) }
{
    match part {
        None => Some(absent),
        Some(value) => whole_within(value, low, high),
    }
}

/// The format that a part says. One that is absent is 1.
fn format(part: Option<&Value>) -> Result<Format, ScriptCause>
    ensures { result ≡ format_of (option_map (λ v. view v.now) part.entry) }
{
    let number = number_or(part, 1, 1, 2).ok_or(ScriptCause::Format)?;
    if number == 1 {
        Ok(Format::One)
    } else {
        Ok(Format::Two)
    }
}

/// The heading, after the tests of all that comes before it.
#[tactic(auto, unfolding(crate::specs::Reading::heading_of))]
pub(crate) fn heading(value: &Value) -> Result<Heading, ScriptCause>
    ensures { result ≡ heading_of (view value.now) }
{
    let found = members(value).ok_or(ScriptCause::Top)?;
    let keys = ["format", "slots", "generations", "components", "frames"];
    if !are_keys_among(found, &keys) {
        return Err(ScriptCause::Key);
    }
    let format = format(value.get("format"))?;
    let slots = number_or(value.get("slots"), u32::MAX, 1, u32::MAX).ok_or(ScriptCause::Slots)?;
    let most = (1 << 31) - 1;
    let generations = number_or(value.get("generations"), most, 1, most).ok_or(
        ScriptCause::Generations,
    )?;
    let limits = Limits::new(slots, generations).ok_or(ScriptCause::Slots)?;
    Ok(Heading { format, limits })
}

/// The name that a value is, if it is none of these.
fn new_name<'a>(names: &Names<'_>, value: &'a Value) -> Option<&'a str>
    ensures { option_map (λ text. text.now) result ≡ new_name names.now (view value.now) }
{
    let text = name(value)?;
    if names.find(text).is_some() {
        None
    } else {
        Some(text)
    }
}

/// The names that all of the values are, no two the same.
pub(crate) fn different_names<'a>(
    alloc: Global,
    values: &'a [Value],
) -> Result<Names<'a>, ReadFault>
    ensures names { ReadsAs result (in_script (numbered (component_at (map view values.now)) 0
        (map view values.now))) }
    ensures few { IfOk result (λ names. length names ≤ length values.now) }
{
    let mut names = Names::new(alloc);
    for value in values {
        let text = new_name(&names, value).ok_or(ScriptCause::Components)?;
        names.add(text)?;
    }
    Ok(names)
}

/// The names as texts of their own.
pub(crate) fn owned(alloc: Global, names: &[&str]) -> Result<Vec<String>, ReadFault>
    ensures ok { IfOk result (λ texts. map string_bytes texts.items
        ≡ map (λ name. name.now) names.now) }
    ensures err { IfErr result (λ fault. fault ≡ Memory) }
{
    let mut texts = Vec::with_capacity(alloc, names.len())?;
    for name in names {
        texts.push(String::from_str(alloc, *name)?)?;
    }
    Ok(texts)
}

/// How deep arrays and objects nest at most.
pub(crate) const DEPTH: usize = 127;

/// What a text says before its frames. If the text is no JSON, that is found first.
fn front_in(alloc: Global, text: &str, scratch: &mut Scratch) -> Result<Front, ReadFault>
    ensures front { ReadsFront result text.now }
    ensures few { IfOk result (λ front. IfSome front.components
        (λ values. length values.items ≤ most_components)) }
{
    let mut reader = Reader::new(text, scratch)?;
    let top = read_top(alloc, &mut reader, DEPTH)?;
    if reader.next().is_some() {
        return Err(ReadFault::Json);
    }
    let heading = heading(&top.value)?;
    Ok(Front {
        heading,
        components: top.components,
    })
}

/// Takes the brace that begins an object, if one is next.
pub(crate) fn opens(reader: &mut Reader<'_>) -> bool
    ensures { MatchBool result (reader.old ≡ begin_object ∷ reader.new)
        (begins_object reader.old ≡ false) }
{
    matches!(reader.next(), Some(Token::BeginObject))
}

fn ran_out(read: &Result<Vec<Frame>, ReadFault>) -> bool
    ensures { result ≡ ran_out read.now }
{
    matches!(read, Err(ReadFault::Memory))
}

/// The frames of an object of which the brace was taken. Of a key that occurs twice the last
/// counts.
fn frames_inside(
    alloc: Global,
    format: Format,
    components: &Names<'_>,
    reader: &mut Reader<'_>,
    depth: usize,
) -> Result<Vec<Frame>, ReadFault>
    requires { length components.now ≤ most_components }
    ensures { (n : ℕ) (ms : Members) (rest : List SpecToken)
        → converted (λ ms. of_members ms no_members) (members (value depth) n reader.old)
        ≡ Some (ms, rest)
        → ReadsList result (frames_of format components.now (get_member (codes "frames") ms)) }
{
    let mut found = Err(ReadFault::Script(ScriptCause::Frames));
    'members: while let Some(key) = reader.next_key()? {
        if key == "frames" {
            found = Err(ReadFault::Script(ScriptCause::Frames));
            found = frames(alloc, format, components, Share::all(1), reader, depth);
            if ran_out(&found) {
                return Err(ReadFault::Memory);
            }
        } else {
            pass_value(reader, depth)?;
        }
    }
    found
}

/// The frames of a text with these components, if it is JSON.
fn frames_in(
    alloc: Global,
    format: Format,
    components: &Names<'_>,
    text: &str,
    scratch: &mut Scratch,
) -> Result<Vec<Frame>, ReadFault>
    requires { length components.now ≤ most_components }
    ensures { (d : Data) → read text.now ≡ Some d
        → ReadsList result (frames_of format components.now (get (codes "frames") d)) }
{
    let mut reader = Reader::new(text, scratch)?;
    if !opens(&mut reader) {
        return Err(ReadFault::Script(ScriptCause::Frames));
    }
    frames_inside(alloc, format, components, &mut reader, DEPTH - 1)
}

/// The script that a text with this front means.
#[tactic(auto, unfolding(crate::specs::Reading::script_of))]
fn script_in(
    alloc: Global,
    front: Front,
    text: &str,
    scratch: &mut Scratch,
) -> Result<Script, ReadFault>
    requires { IfSome front.components (λ values. length values.items ≤ most_components) }
    ensures { (d : Data) → read text.now ≡ Some d → IsFront front d
        → ReadsAs result (script_of d) }
{
    let heading = front.heading;
    let values = front.components.ok_or(ScriptCause::Components)?;
    let components = different_names(alloc, &values)?;
    let frames = frames_in(alloc, heading.format, &components, text, scratch)?;
    let names = owned(alloc, components.as_slice())?;
    Ok(Script::new(heading.limits, names, frames))
}

/// One more worker reads for each so many bytes of a text. To start a thread takes at most a fifth as
/// long as one worker takes to read them.
const WORTH: usize = 131_072;

/// The most workers that read a text. More would hardly be faster, since each passes over all of it.
const MOST: usize = 8;

/// The script that a JSON text means, read by 1 to 64 workers.
///
/// Each worker takes time linear in the text, and logarithmic time for each look-up of a name. If the
/// frames come last, it reads the text once, and passes over the systems of the others. A short text
/// has fewer workers. One worker reads any other text from the start again, twice. Each keeps no more
/// than one operation at a time as a value.
///
/// # Errors
///
/// `Json` if `serde_json` reads no value from the text; `Script`, `Frame`, `System` or `Operation`
/// with the first test that the value fails. `Memory` if memory ran out.
pub fn read_script<R>(
    rt: &R,
    alloc: Global,
    text: &[u8],
    workers: usize,
) -> Result<Script, ReadFault>
where
    R: Threads + Sync,
    requires some { 0 < workers }
    requires few { workers ≤ 64 }
    ensures exact { ReadsAs result (script_of_text text.now) }
    ensures ranges { IfOk result IsScript }
{
    let Ok(checked) = simdutf8::basic::from_utf8(text) else {
        return Err(ReadFault::Json);
    };
    let readers = (text.len() / WORTH).min(workers.min(MOST) - 1) + 1;
    match script_of_share(rt, alloc, checked, Share::all(readers)) {
        Ok(script) => return Ok(script),
        Err(ReadFault::Memory) => return Err(ReadFault::Memory),
        Err(_) => (),
    }
    let mut scratch = Scratch::new(alloc);
    let front = front_in(alloc, checked, &mut scratch)?;
    script_in(alloc, front, checked, &mut scratch)
}
