// Runs the calls of headers on the documents' examples and on the edges of their rules, and writes what they answer.
#![tactic(auto)]

mod again; // every octet, there and back
mod calls; // one call, and its answer shown
mod show; // words, numbers and octets

use crate::again::{characters, every_octet};
use crate::calls::{
    ESCAPED, OLDER, PLAIN, decimal, decimal_itself, entry, find, length, length_of, line,
    long_record, record, shortest, valid,
};
use std::io;
use std::io::Write;

fn main(rt: HostRuntime) -> io::Result<()> {
    let output = &mut rt.stdout();
    document_blocks(output)?;
    document_lines(output)?;
    one_pass(output)?;
    octet_13(output)?;
    every_octet(output)?;
    characters(output)?;
    not_raw(output)?;
    rooms(output)?;
    long_lines(output)?;
    long_texts(output)?;
    one_text(output)?;
    line_rooms(output)?;
    empty_names(output)?;
    cut_blocks(output)?;
    entries(output)?;
    read_decimals(output)?;
    read_edges(output)?;
    write_decimals(output)
}

// P6, and what stands in its block.
fn document_blocks<W: Write>(output: &mut W) -> io::Result<()> {
    record(output, b"P6: ", b"destination", b"/p", ESCAPED, 600)?;
    let p6: &[u8] = b"HD\x00\x0b\x00\x02destination/p";
    find(output, b"P6 destination: ", p6, b"destination")?;
    find(output, b"P6 run: ", p6, b"run")?;
    line(
        output,
        b"P6 added line: ",
        b"content-length",
        b"2",
        ESCAPED,
        600,
    )
}

// P7 and P13, and what stands in their blocks.
fn document_lines<W: Write>(output: &mut W) -> io::Result<()> {
    let id: &[u8] = b"id";
    record(output, b"P7: ", id, b"a\\cb", ESCAPED, 600)?;
    find(output, b"P7 id: ", b"HD\x00\x02\x00\x03ida:b", id)?;
    line(output, b"P7 again: ", id, b"a:b", ESCAPED, 600)?;
    find(
        output,
        b"P13 run: ",
        b"HD\x00\x03\x00\x01runbHD\x00\x03\x00\x01runa",
        b"run",
    )
}

// One pass: an escaped backslash, then a c.
fn one_pass<W: Write>(output: &mut W) -> io::Result<()> {
    let x: &[u8] = b"x";
    let value: &[u8] = b"\\\\c";
    record(output, b"\\\\c: ", x, value, ESCAPED, 600)?;
    record(output, b"\\\\c, no escapes: ", x, value, PLAIN, 600)
}

// Octet 13, which 1.2 escapes as \r and 1.1 has in its text as it is: \r is no escape there. The other escapes are those of both.
fn octet_13<W: Write>(output: &mut W) -> io::Result<()> {
    let id: &[u8] = b"id";
    let plain: &[u8] = b"a\rb";
    let letter: &[u8] = b"a\\rb";
    record(output, b"\\r: ", id, letter, ESCAPED, 600)?;
    record(output, b"\\r, in 1.1: ", id, letter, OLDER, 600)?;
    record(output, b"13: ", id, plain, ESCAPED, 600)?;
    record(output, b"13, in 1.1: ", id, plain, OLDER, 600)?;
    line(output, b"13 written: ", id, plain, ESCAPED, 600)?;
    line(output, b"13 written, in 1.1: ", id, plain, OLDER, 600)?;
    record(
        output,
        b"\\n, \\c and \\\\, in 1.1: ",
        id,
        b"\\n\\c\\\\",
        OLDER,
        600,
    )?;
    line(
        output,
        b"10, colon and backslash written, in 1.1: ",
        id,
        b"\n:\\",
        OLDER,
        600,
    )
}

// Text that is not raw text.
fn not_raw<W: Write>(output: &mut W) -> io::Result<()> {
    let id: &[u8] = b"id";
    let cut: &[u8] = b"a\\";
    record(output, b"\\t: ", id, b"a\\t", ESCAPED, 0)?;
    record(output, b"cut escape: ", id, cut, ESCAPED, 600)?;
    record(output, b"cut escape, no escapes: ", id, cut, PLAIN, 600)?;
    record(output, b"colon in a name: ", b"a:b", b"", PLAIN, 600)
}

// Room for all of a record, and for all but one octet.
fn rooms<W: Write>(output: &mut W) -> io::Result<()> {
    let id: &[u8] = b"id";
    let value: &[u8] = b"a\\cb";
    record(output, b"room 10 of 11: ", id, value, ESCAPED, 10)?;
    record(output, b"room 11 of 11: ", id, value, ESCAPED, 11)
}

// A line that cannot be written, and room for all of one, and for all but one octet.
fn line_rooms<W: Write>(output: &mut W) -> io::Result<()> {
    let id: &[u8] = b"id";
    let value: &[u8] = b"a:b";
    line(output, b"colon, no escapes: ", id, value, PLAIN, 600)?;
    line(output, b"room 7 of 8: ", id, value, ESCAPED, 7)?;
    line(output, b"room 8 of 8: ", id, value, ESCAPED, 8)
}

fn empty_names<W: Write>(output: &mut W) -> io::Result<()> {
    line(output, b"empty name: ", b"", b"v", ESCAPED, 0)?;
    record(output, b"empty name, record: ", b"", b"v", ESCAPED, 600)?;
    find(output, b"empty name, found: ", b"HD\x00\x00\x00\x01v", b"")
}

// Blocks of no records, and blocks that are cut.
fn cut_blocks<W: Write>(output: &mut W) -> io::Result<()> {
    find(output, b"no records: ", b"", b"x")?;
    find(output, b"cut record: ", b"HD\x00\x02\x00\x03ida:", b"id")?;
    find(
        output,
        b"wrong tag behind: ",
        b"HD\x00\x01\x00\x01abHE\x00\x00\x00\x00",
        b"a",
    )?;
    find(output, b"zeros behind: ", b"HD\x00\x01\x00\x01ab\x00", b"a")
}

// Two records, and the same with its last octet cut.
fn entries<W: Write>(output: &mut W) -> io::Result<()> {
    let block: &[u8] = b"HD\x00\x01\x00\x01abHD\x00\x00\x00\x00";
    entry(output, block, 0)?;
    entry(output, block, 8)?;
    entry(output, block, 14)?;
    entry(output, block, 1)?;
    valid(output, b"valid: ", block)?;
    valid(output, b"valid, one octet cut: ", &block[0..13])
}

// Lines of 512 octets and of 513: raw, and decoded.
fn long_lines<W: Write>(output: &mut W) -> io::Result<()> {
    let fits: &[u8] = &[97u8; 510];
    let over: &[u8] = &[97u8; 511];
    record(output, b"line of 512: ", b"x", fits, ESCAPED, 600)?;
    record(output, b"line of 513: ", b"x", over, ESCAPED, 600)?;
    length(output, b"written, 512: ", fits, ESCAPED)?;
    length(output, b"written, 513: ", over, ESCAPED)?;
    length(output, b"colons, 512: ", &[58u8; 255], ESCAPED)?;
    length(output, b"colons, 514: ", &[58u8; 256], ESCAPED)
}

// Texts whose length two octets can say, and those of one octet more; what counts is the length of the decoded text.
fn long_texts<W: Write>(output: &mut W) -> io::Result<()> {
    let x: &[u8] = b"x";
    let over: &[u8] = &[97u8; 65536];
    let fits = &over[0..65535];
    long_record(output, b"value of 65535: ", x, fits)?;
    long_record(output, b"value of 65536: ", x, over)?;
    long_record(output, b"name of 65535: ", fits, x)?;
    long_record(output, b"name of 65536: ", over, x)?;
    long_record(output, b"value of 32768 escapes: ", x, &[92u8; 65536])
}

// Names and values in one text: lines of 512 and of 513, no name, and a name as long as the text or longer.
fn one_text<W: Write>(output: &mut W) -> io::Result<()> {
    length_of(output, b"together, 512: ", &[97u8; 511], 1, ESCAPED)?;
    length_of(output, b"together, 513: ", &[97u8; 512], 1, ESCAPED)?;
    length_of(output, b"together, colon in the name: ", b"a:b", 2, ESCAPED)?;
    length_of(output, b"the same, no escapes: ", b"a:b", 2, PLAIN)?;
    length_of(output, b"together, no name: ", b"ab", 0, ESCAPED)?;
    length_of(output, b"together, no value: ", b"ab", 2, ESCAPED)?;
    length_of(output, b"together, name past the end: ", b"ab", 3, ESCAPED)?;
    length_of(output, b"together, nothing: ", b"", 1, ESCAPED)
}

fn read_decimals<W: Write>(output: &mut W) -> io::Result<()> {
    decimal_itself(output, b"32768", 32768)?;
    decimal_itself(output, b"0000000000000000000000032768", 32768)?;
    decimal_itself(output, b"32769", 32768)?;
    decimal_itself(output, b"99999999999999999999999999", 4294967295)?;
    decimal_itself(output, b"4294967295", 4294967295)
}

fn read_edges<W: Write>(output: &mut W) -> io::Result<()> {
    decimal(output, b"nothing: ", b"", 32768)?;
    decimal(output, b"blank and 5: ", b" 5", 32768)?;
    decimal(output, b"1:1 : ", b"1:1", 32768)?;
    decimal(output, b"0, at most 0: ", b"0", 0)
}

fn write_decimals<W: Write>(output: &mut W) -> io::Result<()> {
    shortest(output, 0, 24)?;
    shortest(output, 9, 24)?;
    shortest(output, 10, 24)?;
    shortest(output, 32768, 24)?;
    shortest(output, 18446744073709551615, 20)?;
    shortest(output, 18446744073709551615, 19)
}
