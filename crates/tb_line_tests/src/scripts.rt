// Scripts in their own words, and the limits.

use std::alloc::Global;
use std::test::Fail;
use tb_base::{Memory, print_number};
use tb_script::{MOST_SCRIPT_BYTES, Script, ScriptFault};

// A script, how many phases and lanes it has, and its lines, each with its phase and lane in front.
type Accepted = (&'static [u8], u32, usize, &'static [u8]);

static ACCEPTED: [Accepted; 11] = [
    (b"", 1, 0, b""),
    (b"a x\r\nb y\n", 1, 2, b"1 a x\n1 b y\n"),
    (
        b"a x\r\r\na x\ry\na x\r",
        1,
        1,
        b"1 a x\r\n1 a x\ry\n1 a x\r\n",
    ),
    (b"\n \t\r\n#\n# a x\na #x\n  ", 1, 1, b"1 a #x\n"),
    (b"--", 2, 0, b""),
    (
        b"a x\n--\r\n--\nb y\na z\n--\n",
        4,
        2,
        b"1 a x\n3 b y\n3 a z\n",
    ),
    (b"a \t  x  y \t\n", 1, 1, b"1 a x  y \t\n"),
    (b"a x\nA y\na --\n", 1, 2, b"1 a x\n1 A y\n1 a --\n"),
    (
        b"a1B2 x\nabcdefghijklmnop x",
        1,
        2,
        b"1 a1B2 x\n1 abcdefghijklmnop x\n",
    ),
    (b"a \xff\x00\n", 1, 1, b"1 a \xff\x00\n"),
    (b"a\tadd 7 7 SEX=1\n", 1, 1, b"1 a add 7 7 SEX=1\n"),
];

fn accepted() -> &'static [Accepted] {
    &ACCEPTED
}

fn script_of(alloc: Global, file: &[u8]) -> Result<Script, ScriptFault> {
    if file.len() as u64 > MOST_SCRIPT_BYTES {
        return Err(ScriptFault::Memory);
    }
    Script::read(alloc, file)
}

// Adds a number.
fn add_number(text: &mut Vec<u8>, number: u32) -> Result<(), Memory> {
    let mut digits = [b'0'; 10];
    let len = print_number(number, &mut digits);
    text.extend_from_slice(&digits[..len])?;
    Ok(())
}

// The lines of a script, each with its phase and lane in front.
fn text_of(alloc: Global, script: &Script) -> Result<Vec<u8>, Memory> {
    let mut text = Vec::new(alloc);
    for i in 0..script.len() {
        add_number(&mut text, script.phase(i))?;
        text.push(b' ')?;
        text.extend_from_slice(script.lane(i).as_bytes())?;
        text.push(b' ')?;
        text.extend_from_slice(script.line(i))?;
        text.push(b'\n')?;
    }
    Ok(text)
}

// Whether a script has these lines.
fn has_lines(alloc: Global, script: &Script, lines: &[u8]) -> Result<bool, Memory> {
    Ok(text_of(alloc, script)?.as_slice() == lines)
}

// Whether a script is read as a row says.
fn is_read(alloc: Global, row: &Accepted) -> Result<bool, Memory> {
    let (file, phases, lanes, lines) = row;
    let Ok(script) = script_of(alloc, file) else {
        return Ok(false);
    };
    if script.phases() != *phases || script.lanes() != *lanes {
        return Ok(false);
    }
    has_lines(alloc, &script, lines)
}

#[test]
fn scripts_are_read(rt: HostRuntime) -> Result<(), Fail> {
    for (i, row) in accepted().iter().enumerate() {
        assert!(rt; is_read(rt.alloc(), row)?, "script {i}");
    }
    Ok(())
}

// A script and the number of its first bad line.
static REFUSED: [(&'static [u8], u32); 16] = [
    (b" a x\n", 1),
    (b" # x\n", 1),
    (b"-- \n", 1),
    (b"---\n", 1),
    (b"1a x\n", 1),
    (b"a_b x\n", 1),
    (b"a\x0bx y\n", 1),
    (b"\xc3\xa9 x\n", 1),
    (b"abcdefghijklmnopq x\n", 1),
    (b"a", 1),
    (b"a \t\n", 1),
    (b"a\r\n", 1),
    (b"\r", 1),
    (b"--\r", 1),
    (b"# c\n\n--\na x\n \nb\nc\n", 6),
    (b"a x\r\nb", 2),
];

fn refused() -> &'static [(&'static [u8], u32)] {
    &REFUSED
}

// The number of the first bad line, 0 where there is none; the greatest for want of memory.
fn bad_line(alloc: Global, file: &[u8]) -> u32 {
    match script_of(alloc, file) {
        Ok(_) => 0,
        Err(ScriptFault::Line(line)) => line,
        Err(ScriptFault::Memory) => u32::MAX,
    }
}

#[test]
fn first_bad_line(rt: HostRuntime) -> Result<(), Fail> {
    for (i, (file, line)) in refused().iter().enumerate() {
        assert!(rt; bad_line(rt.alloc(), file) == *line, "script {i}");
    }
    Ok(())
}

// So many lanes with a line each, and then a comment, a line of the seventh, and a last line.
fn lanes_file(alloc: Global, lanes: u32, last: &[u8]) -> Result<Vec<u8>, Memory> {
    let mut file = Vec::new(alloc);
    for lane in 1..=lanes {
        file.extend_from_slice(b"lane")?;
        add_number(&mut file, lane)?;
        file.extend_from_slice(b" x\n")?;
    }
    file.extend_from_slice(b"# y\nlane7 z\n")?;
    file.extend_from_slice(last)?;
    Ok(file)
}

// How many lanes, the last line, and the number of the first bad line.
static LANES: [(u32, &'static [u8], u32); 4] = [
    (63, b"other x\n", 0),
    (64, b"lane64 x\n", 0),
    (64, b"Lane64 x\n", 67),
    (66, b"", 65),
];

fn lanes_rows() -> &'static [(u32, &'static [u8], u32)] {
    &LANES
}

#[test]
fn most_lanes(rt: HostRuntime) -> Result<(), Fail> {
    for (lanes, last, line) in lanes_rows() {
        let file = lanes_file(rt.alloc(), *lanes, last)?;
        assert!(rt;
            bad_line(rt.alloc(), file.as_slice()) == *line,
            "{lanes} lanes"
        );
    }
    Ok(())
}

// A line of so many bytes that begins so and goes on with one byte, and then its end.
fn long_line(
    alloc: Global,
    start: &[u8],
    fill: u8,
    bytes: usize,
    end: &[u8],
) -> Result<Vec<u8>, Memory> {
    let mut file = Vec::from_slice(alloc, start)?;
    for _ in start.len()..bytes {
        file.push(fill)?;
    }
    file.extend_from_slice(end)?;
    Ok(file)
}

// How a line begins and goes on, its end, and the most bytes before its end.
type Long = (&'static [u8], u8, &'static [u8], usize);

static LONG: [Long; 5] = [
    (b"a ", b'x', b"\r\n", 4096),
    (b"a ", b'x', b"", 4096),
    (b"a ", b'x', b"\r", 4095),
    (b"#", b'x', b"\n", 4096),
    (b"", b' ', b"\n", 4096),
];

fn long() -> &'static [Long] {
    &LONG
}

// The number of the first bad line of a line of so many bytes.
fn bad_in(alloc: Global, row: &Long, bytes: usize) -> Result<u32, Memory> {
    let (start, fill, end, _) = row;
    let file = long_line(alloc, start, *fill, bytes, end)?;
    Ok(bad_line(alloc, file.as_slice()))
}

#[test]
fn longest_line(rt: HostRuntime) -> Result<(), Fail> {
    for (i, row) in long().iter().enumerate() {
        assert!(rt; bad_in(rt.alloc(), row, row.3)? == 0, "line {i}");
        assert!(rt;
            bad_in(rt.alloc(), row, row.3.saturating_add(1))? == 1,
            "longer line {i}"
        );
    }
    Ok(())
}

#[test]
fn text_of_script_fault(rt: HostRuntime) -> Result<(), Fail> {
    let text = format!(in rt.alloc(); "{}", ScriptFault::Line(3))?;
    assert_eq!(rt;
        text.as_str(),
        "line 3 is no lane's name and line, has over 4096 bytes, or brings a 65th lane"
    );
    Ok(())
}
