//! Generating: the script that `--make` plays, drawn from a number. It knows no device.
ghost use Rattle.std.specs.Prelude.{◌≡◌, ◌++◌, ◌<◌, ◌+◌, IfOk, OnOk, codes, string_bytes};
ghost use Rattle.std.specs.List.{flat_map};
ghost use Rattle.hac_model.specs.Script.Generator.{asking_line, drawn_behind, drawn_count};
ghost use Rattle.hac_model.specs.Script.Generator.{command_line, drawn_line, drawn_lines};
ghost use Rattle.hac_model.specs.Script.Generator.{file_word, generated, linking_line, next_drawn};
ghost use Rattle.hac_model.specs.Script.Generator.{pick, plain_lines, removing_line};
ghost use Rattle.hac_model.specs.Script.Generator.{semantic_line, semantic_lines, writing_line};
ghost use Rattle.hac_model.specs.Script.Printed.{ended};

use hac_model::Memory;
use std::alloc::Global;

// The factor and the increment of the linear congruential generator of Knuth's MMIX.
const FACTOR: u64 = 6_364_136_223_846_793_005;

const INCREMENT: u64 = 1_442_695_040_888_963_407;

// How many lines are drawn.
const DRAWN_COUNT: u64 = 20_000;

/// The script that is drawn from a number: 20,021 lines, of some 420 kB in all. The same number
/// gives the same script. An error means that memory ran out.
pub fn make_script(alloc: Global, number: u64) -> Result<Vec<u8>, Memory>
    ensures { IfOk result (λ script. script.items ≡ generated number) }
{
    let mut script = Vec::new(alloc);
    push_plain(alloc, &mut script)?;
    push_semantic(alloc, &mut script)?;
    push_drawn(alloc, &mut script, drawn_count(), number)?;
    push_line(&mut script, b"index")?;
    Ok(script)
}

// How many lines are drawn, as the definition has it.
fn drawn_count() -> u64
    ensures { result ≡ drawn_count }
{
    DRAWN_COUNT
}

// Appends the lines that make ten directories.
fn push_plain(alloc: Global, script: &mut Vec<u8>) -> Result<(), Memory>
    ensures { OnOk result (script.new.items ≡ script.old.items ++ flat_map ended plain_lines) }
{
    for number in 0..10_u64 {
        push_line(script, format!(in alloc; "mkdir /d{number}")?.as_bytes())?;
    }
    Ok(())
}

// Appends the lines that make ten semantic directories.
fn push_semantic(alloc: Global, script: &mut Vec<u8>) -> Result<(), Memory>
    ensures { OnOk result (script.new.items ≡ script.old.items ++ flat_map ended semantic_lines) }
{
    push_line(script, b"smkdir /s0 w0")?;
    for number in 1..10 {
        push_line(script, semantic_line(alloc, number)?.as_bytes())?;
    }
    Ok(())
}

// A directory that asks for what the one before it has without one word, and for another word.
fn semantic_line(alloc: Global, number: u64) -> Result<String, Memory>
    requires low { 0 < number }
    requires high { number < 10 }
    ensures { IfOk result (λ line. string_bytes line ≡ semantic_line number) }
{
    let before = number - 1;
    let away = number + 10;
    Ok(format!(in alloc; "smkdir /s{number} {{/s{before}}} AND NOT w{away} OR w{number}")?)
}

// Appends so many lines, one drawn behind the other.
fn push_drawn(alloc: Global, script: &mut Vec<u8>, count: u64, number: u64) -> Result<(), Memory>
    ensures { OnOk result (script.new.items ≡
        script.old.items ++ flat_map ended (drawn_lines count number)) }
{
    let mut left = count;
    let mut drawn = number;
    'lines: while left > 0 {
        let line = drawn_line(alloc, drawn)?;
        push_line(script, line.text.as_bytes())?;
        drawn = drawn_behind(line.places, drawn);
        left -= 1;
    }
    Ok(())
}

// A line, and how many numbers were drawn for it.
#[derive(Drop)]
struct DrawnLine {
    text: String,
    places: u64,
}

// The line that is drawn behind a number: the first pick is its command.
fn drawn_line(alloc: Global, drawn: u64) -> Result<DrawnLine, Memory>
    ensures { IfOk result (λ line. (string_bytes line.text, line.places) ≡ drawn_line drawn) }
{
    command_line(alloc, drawn, pick(drawn, 0, 10))
}

// The line of a command, of which there are ten, and half of them write.
fn command_line(alloc: Global, drawn: u64, command: u64) -> Result<DrawnLine, Memory>
    ensures { IfOk result (λ line. (string_bytes line.text, line.places)
        ≡ command_line drawn command) }
{
    match command {
        0..=4 => drawn_with(6, writing_line(alloc, drawn)),
        5 => drawn_with(3, removing_line(alloc, drawn)),
        6 => drawn_with(1, ticking_line(alloc)),
        7 => drawn_with(4, linking_line(alloc, "srm", drawn)),
        8 => drawn_with(4, linking_line(alloc, "sln", drawn)),
        _ => drawn_with(5, asking_line(alloc, drawn)),
    }
}

// The line, for which so many numbers were drawn.
fn drawn_with(places: u64, text: Result<String, Memory>) -> Result<DrawnLine, Memory>
    ensures { IfOk result (λ line. (text ≡ Ok line.text) × (line.places ≡ places)) }
{
    match text {
        Ok(text) => Ok(DrawnLine { text, places }),
        Err(memory) => Err(memory),
    }
}

fn writing_line(alloc: Global, drawn: u64) -> Result<String, Memory>
    ensures { IfOk result (λ line. string_bytes line ≡ writing_line drawn) }
{
    let file = file_word(alloc, drawn)?;
    let first = pick(drawn, 3, 100);
    let second = pick(drawn, 4, 100);
    let third = pick(drawn, 5, 100);
    Ok(format!(in alloc; "write {file} w{first} w{second} w{third}")?)
}

fn removing_line(alloc: Global, drawn: u64) -> Result<String, Memory>
    ensures { IfOk result (λ line. string_bytes line ≡ removing_line drawn) }
{
    let file = file_word(alloc, drawn)?;
    Ok(format!(in alloc; "rm {file}")?)
}

fn ticking_line(alloc: Global) -> Result<String, Memory>
    ensures { IfOk result (λ line. string_bytes line ≡ codes "tick 3") }
{
    Ok(format!(in alloc; "tick 3")?)
}

// A command on a file and on a semantic directory.
fn linking_line(alloc: Global, word: &str, drawn: u64) -> Result<String, Memory>
    ensures { IfOk result (λ line. string_bytes line ≡ linking_line (word.now ++ codes " ") drawn) }
{
    let file = file_word(alloc, drawn)?;
    let directory = pick(drawn, 3, 10);
    Ok(format!(in alloc; "{word} {file} /s{directory}")?)
}

fn asking_line(alloc: Global, drawn: u64) -> Result<String, Memory>
    ensures { IfOk result (λ line. string_bytes line ≡ asking_line drawn) }
{
    let directory = pick(drawn, 1, 10);
    let word = pick(drawn, 2, 100);
    let named = pick(drawn, 3, 10);
    let below = pick(drawn, 4, 10);
    Ok(format!(in alloc; "setq /s{directory} w{word} OR {{/s{named}}} AND {{/d{below}}}")?)
}

// The path of a file.
fn file_word(alloc: Global, drawn: u64) -> Result<String, Memory>
    ensures { IfOk result (λ word. string_bytes word ≡ file_word drawn) }
{
    let directory = pick(drawn, 1, 10);
    let file = pick(drawn, 2, 40);
    Ok(format!(in alloc; "/d{directory}/f{file}")?)
}

// What the number picks below a bound that comes next behind so many. Its high bits count.
fn pick(drawn: u64, places: u64, bound: u64) -> u64
    requires bound { 0 < bound }
    requires places { places < 10 }
    ensures { result ≡ pick drawn places bound }
{
    (drawn_behind(places + 1, drawn) >> 33) % bound
}

// The number that comes so many places behind another.
fn drawn_behind(places: u64, drawn: u64) -> u64
    ensures { result ≡ drawn_behind places drawn }
{
    let mut behind = drawn;
    'places: for _ in 0..places {
        behind = next_drawn(behind);
    }
    behind
}

// The number that comes behind another.
fn next_drawn(drawn: u64) -> u64
    ensures { result ≡ next_drawn drawn }
{
    drawn.wrapping_mul(FACTOR).wrapping_add(INCREMENT)
}

// Appends bytes and a line end.
fn push_line(script: &mut Vec<u8>, bytes: &[u8]) -> Result<(), Memory>
    ensures { OnOk result (script.new.items ≡ script.old.items ++ ended bytes.now) }
{
    script.extend_from_slice(bytes)?;
    script.push(b'\n')?;
    Ok(())
}
