//! Replies as the program prints them.
ghost use Rattle.std.specs.Prelude.{◌≡◌, ◌++◌, codes, decimal, IfOk, OnOk};
ghost use Rattle.std.specs.List.{flat_map};
ghost use Rattle.hac_model.specs.Tree.Paths.{path_text};
ghost use Rattle.hac_model.specs.Script.Printed.{ended, limit_word, refusal_text, reply_text};

use hac_model::{LimitWord, Memory, Name, Path, Refusal, Reply};
use hac_names::print_path;
use std::alloc::Global;

/// The bytes of a reply, each line with its end.
pub fn print_reply(alloc: Global, reply: &Reply) -> Result<Vec<u8>, Memory>
    ensures { IfOk result (λ bytes. bytes.items ≡ reply_text reply.now) }
{
    let mut out = Vec::new(alloc);
    match reply {
        Reply::Lines(lines) => push_ok_lines(&mut out, lines.as_slice())?,
        Reply::Refused(refusal) => push_no_line(alloc, &mut out, refusal)?,
    }
    Ok(out)
}

/// Appends data lines and then `ok`.
fn push_ok_lines(out: &mut Vec<u8>, lines: &[Name]) -> Result<(), Memory>
    ensures { OnOk result (out.new.items ≡ out.old.items ++
        (flat_map ended lines.now ++ ended (codes "ok"))) }
{
    for line in lines {
        push_line(out, line.as_bytes())?;
    }
    push_line(out, b"ok")
}

/// Appends the one line of a refusal.
fn push_no_line(alloc: Global, out: &mut Vec<u8>, refusal: &Refusal) -> Result<(), Memory>
    ensures { OnOk result (out.new.items ≡ out.old.items ++
        ended (codes "no " ++ refusal_text refusal.now)) }
{
    out.extend_from_slice(b"no ")?;
    push_refusal(alloc, out, refusal)?;
    out.push(b'\n')?;
    Ok(())
}

/// Appends a cause and its detail.
fn push_refusal(alloc: Global, out: &mut Vec<u8>, refusal: &Refusal) -> Result<(), Memory>
    ensures { OnOk result (out.new.items ≡ out.old.items ++ refusal_text refusal.now) }
{
    match refusal {
        Refusal::BadLine => push_bytes(out, b"bad-line"),
        Refusal::BadName => push_bytes(out, b"bad-name"),
        Refusal::NoPath(path) => push_path(alloc, out, b"no-path ", path),
        Refusal::NotDir(path) => push_path(alloc, out, b"not-dir ", path),
        Refusal::NotFile(path) => push_path(alloc, out, b"not-file ", path),
        Refusal::Exists(path) => push_path(alloc, out, b"exists ", path),
        Refusal::NotEmpty(path) => push_path(alloc, out, b"not-empty ", path),
        Refusal::Under(path) => push_path(alloc, out, b"under ", path),
        Refusal::Root => push_bytes(out, b"root"),
        Refusal::BadQuery(place) => push_number(alloc, out, b"bad-query ", *place),
        Refusal::Cycle(path) => push_path(alloc, out, b"cycle ", path),
        Refusal::Referenced(path) => push_path(alloc, out, b"referenced ", path),
        Refusal::Busy(session) => push_detail(out, b"busy ", session.as_bytes()),
        Refusal::NotSemantic(path) => push_path(alloc, out, b"not-semantic ", path),
        Refusal::NotLinked(path) => push_path(alloc, out, b"not-linked ", path),
        Refusal::Already(path) => push_path(alloc, out, b"already ", path),
        Refusal::NoMark(path) => push_path(alloc, out, b"no-mark ", path),
        Refusal::NoSpace(space) => push_detail(out, b"no-space ", space.as_bytes()),
        Refusal::SpaceFault(space) => push_detail(out, b"space-fault ", space.as_bytes()),
        Refusal::Limit(word) => push_detail(out, b"limit ", limit_word(*word)),
        Refusal::InMount(path) => push_path(alloc, out, b"in-mount ", path),
        Refusal::Loop(path) => push_path(alloc, out, b"loop ", path),
        Refusal::NotLink(path) => push_path(alloc, out, b"not-link ", path),
        Refusal::ShortPut => push_bytes(out, b"short-put"),
        Refusal::NotMount(path) => push_path(alloc, out, b"not-mount ", path),
        Refusal::Gone(path) => push_path(alloc, out, b"gone ", path),
    }
}

/// Appends bytes as they are.
pub fn push_bytes(out: &mut Vec<u8>, bytes: &[u8]) -> Result<(), Memory>
    ensures { OnOk result (out.new.items ≡ out.old.items ++ bytes.now) }
{
    out.extend_from_slice(bytes)?;
    Ok(())
}

/// Appends a cause and the path that it is about.
fn push_path(alloc: Global, out: &mut Vec<u8>, cause: &[u8], path: &Path) -> Result<(), Memory>
    ensures { OnOk result (out.new.items ≡ out.old.items ++ (cause.now ++ path_text path.now)) }
{
    push_detail(out, cause, print_path(alloc, path)?.as_bytes())
}

/// Appends what stands before a number, and the number.
pub fn push_number(
    alloc: Global,
    out: &mut Vec<u8>,
    before: &[u8],
    number: u64,
) -> Result<(), Memory>
    ensures { OnOk result (out.new.items ≡ out.old.items ++ (before.now ++ decimal number)) }
{
    push_detail(out, before, number.to_string(alloc)?.as_bytes())
}

/// Appends a cause and its detail.
fn push_detail(out: &mut Vec<u8>, cause: &[u8], detail: &[u8]) -> Result<(), Memory>
    ensures { OnOk result (out.new.items ≡ out.old.items ++ (cause.now ++ detail.now)) }
{
    out.extend_from_slice(cause)?;
    out.extend_from_slice(detail)?;
    Ok(())
}

/// The word by which a refusal names a limit.
fn limit_word(word: LimitWord) -> &'static [u8]
    ensures { result.now ≡ limit_word word }
{
    match word {
        LimitWord::Line => b"line",
        LimitWord::Name => b"name",
        LimitWord::Target => b"target",
        LimitWord::Text => b"text",
        LimitWord::Query => b"query",
        LimitWord::Terms => b"terms",
        LimitWord::Nesting => b"nesting",
        LimitWord::Texts => b"texts",
        LimitWord::Dirs => b"dirs",
        LimitWord::Semantics => b"semantics",
        LimitWord::Mounts => b"mounts",
        LimitWord::Symlinks => b"symlinks",
        LimitWord::Path => b"path",
        LimitWord::Sessions => b"sessions",
        LimitWord::Docs => b"docs",
        LimitWord::Items => b"items",
        LimitWord::Numbers => b"numbers",
        LimitWord::Answers => b"answers",
        LimitWord::Store => b"store",
    }
}

/// Appends bytes and a line end.
fn push_line(out: &mut Vec<u8>, bytes: &[u8]) -> Result<(), Memory>
    ensures { OnOk result (out.new.items ≡ out.old.items ++ ended bytes.now) }
{
    out.extend_from_slice(bytes)?;
    out.push(b'\n')?;
    Ok(())
}
