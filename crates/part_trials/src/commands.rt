//! Lines: which commands and sessions they spell, and how these are printed.
use hac_model::{Deny, Refusal};
use shell_lang::{parse_line, print_command, put_length};
use std::alloc::Global;
use std::process::Abort;
use std::test::Fail;

#[test]
fn prints_commands(rt: HostRuntime) -> Result<(), Fail> {
    for (line, want) in [
        (b"mkdir /a".as_slice(), b"mkdir \"/a\"\n".as_slice()),
        (
            b"mv a\\\"b ../../c/",
            b"mv \"./a\\\\\\\"b\" \"./../../c\"\n",
        ),
        (b"write /n a\\nb", b"put \"/n\" 3\na\nb"),
        (
            b"ln \"my \\\"x\\\"//../\" /l/.",
            b"ln \"my \\\"x\\\"//../\" \"/l\"\n",
        ),
        (b"readlink l//m", b"readlink \"./l/m\"\n"),
        (b"ls", b"ls\n"),
        (b"  @bob   cd ..", b"@bob cd \"./..\"\n"),
        (b"@main tick \"10\"", b"tick 10\n"),
        (b"@a-_1 sls", b"@a-_1 sls\n"),
        (
            b"smkdir \"/my s\" (Apple*) AND NOT {/a}",
            b"smkdir \"/my s\" apple* AND NOT {/a}\n",
        ),
        (b"smount /m \"lib\"", b"smount \"/m\" \"lib\"\n"),
        (
            b"@bob smount ../m/ a-_1",
            b"@bob smount \"./../m\" \"a-_1\"\n",
        ),
        (b"ssync m/.", b"ssync \"./m\"\n"),
        (b"sumount //m", b"sumount \"/m\"\n"),
        (b"@bob  checkpoint ", b"@bob checkpoint\n"),
    ] {
        expect_printed(&rt, rt.alloc(), line, want)?;
    }
    Ok(())
}

/// How the command of a line is printed.
fn expect_printed(rt: &impl Abort, alloc: Global, line: &[u8], want: &[u8]) -> Result<(), Fail> {
    let command = parse_line(alloc, line, None)?;
    let printed = print_command(alloc, &command);
    drop(command);
    assert_eq!(rt; printed?.as_slice(), want);
    Ok(())
}

#[test]
fn refuses_lines(rt: HostRuntime) -> Result<(), Fail> {
    for line in [
        b"@bob ".as_slice(),
        b"@ bob pwd",
        b"@b.b pwd",
        b"@bob @bob pwd",
        b"\"@bob\" pwd",
        b"@\"bob\" pwd",
        b"pwd /",
        b"tick",
        b"tick 01",
        b"tick 65537",
        b"smount /m",
        b"smount /m lib lib",
        b"smount \"\" l.b",
        b"ssync",
        b"sumount /m lib",
    ] {
        expect_bad(&rt, rt.alloc(), line);
    }
    Ok(())
}

fn expect_bad(rt: &impl Abort, alloc: Global, line: &[u8]) {
    let fault = parse_line(alloc, line, None).err();
    assert_eq!(rt; fault, Some(Deny::Refused(Refusal::BadLine)), "{line:?}");
}

#[test]
fn counts_bytes_of_puts(rt: HostRuntime) -> Result<(), Fail> {
    assert_eq!(rt; put_length(b"@bob put /a 3"), Some(3));
    assert_eq!(rt; put_length(b"@b.b put /a 3"), None);
    Ok(())
}
