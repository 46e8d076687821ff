// Symbols, ranges and forms on a page. Each function writes behind what stands there, and cuts off what does not fit.
ghost use Rattle.std.specs.Prelude.{◌≡◌};
ghost use Rattle.program_io.specs.Wrote.{Wrote};
ghost use Rattle.tableshow.specs.Names.{hex_digit, blank, symbol, point, range};
ghost use Rattle.tableshow.specs.Forms.{digit_in, glyph_of, number_in, exit_in, low_in, high_in, piece, drawn, formed};

use crate::forms::form_byte;
use crate::{Page, forms};

// The last hexadecimal digit of a number.
fn hex_digit(x: u64) -> u8
    ensures { result ≡ hex_digit x }
{
    let digit = (x % 16) as u8;
    if digit < 10 {
        return 48 + digit;
    }
    55 + digit
}

// The number whose last digit a byte of a form stands for.
fn digit_in(byte: u8, x: u64) -> u64
    ensures { result ≡ digit_in byte x }
{
    match byte {
        129 => x,
        130 => x / 16,
        131 => x / 256,
        132 => x / 4096,
        133 => x / 65536,
        134 => x / 65536 / 16,
        135 => x / 65536 / 256,
        _ => x / 65536 / 4096,
    }
}

// What a byte of a symbol's form stands for.
fn glyph_of(byte: u8, x: u64) -> u8
    ensures { result ≡ glyph_of byte x }
{
    if byte < 128 {
        return byte;
    }
    if byte == 128 {
        return (x % 256) as u8;
    }
    hex_digit(digit_in(byte, x))
}

// A symbol by its form. (A zero ends a form, so the loop goes over no range.)
fn put_drawn(form: usize, x: u64, page: &mut Page)
    ensures { Wrote (drawn form x) page.old page.new }
{
    let mut i = form;
    let mut byte = form_byte(i);
    while 0 < byte {
        page.put_byte(glyph_of(byte, x));
        i += 1;
        byte = form_byte(i);
    }
}

fn blank_form(x: u64) -> usize
    ensures { drawn result x ≡ blank x }
{
    match x {
        32 => forms::SPACE,
        9 => forms::TAB,
        10 => forms::NEWLINE,
        13 => forms::RETURN,
        _ => forms::HEXED,
    }
}

// The form of an ASCII symbol.
fn symbol_form(x: u64) -> usize
    ensures { drawn result x ≡ symbol x }
{
    if x < 33 {
        return blank_form(x);
    }
    if x < 127 {
        return forms::QUOTED;
    }
    forms::HEXED
}

// The form of a code point.
fn point_form(x: u64) -> usize
    ensures { drawn result x ≡ point x }
{
    if x < 128 {
        return symbol_form(x);
    }
    let front = x / 65536;
    if front < 1 {
        return forms::WIDE_4;
    }
    if front < 16 {
        return forms::WIDE_5;
    }
    if front < 256 {
        return forms::WIDE_6;
    }
    forms::WIDE_8
}

// A range of code points; one of a single point by that alone.
fn put_range(low: u64, high: u64, page: &mut Page)
    ensures { Wrote (range low high) page.old page.new }
{
    put_drawn(point_form(low), low, page);
    if low == high {
        return;
    }
    put_drawn(forms::DOTS, 0, page);
    put_drawn(point_form(high), high, page)
}

// What a byte of a line's form stands for: a number, an exit of a run, or the ends of a range.
fn number_in(byte: u8, a: u64, b: u64, c: u64) -> u64
    ensures { result ≡ number_in byte a b c }
{
    match byte {
        128 => a,
        129 => b,
        _ => c,
    }
}

fn exit_in(byte: u8, a: u64) -> u64
    ensures { result ≡ exit_in byte a }
{
    match byte {
        131 => a / 256 % 256,
        132 => a / 65536 % 256,
        _ => a / 16777216,
    }
}

fn low_in(byte: u8, a: u64, b: u64, c: u64) -> u64
    ensures { result ≡ low_in byte a b c }
{
    match byte {
        134 => a,
        135 => b % 256,
        136 => b / 65536 % 256,
        137 => c % 256,
        _ => c / 65536 % 256,
    }
}

fn high_in(byte: u8, b: u64, c: u64) -> u64
    ensures { result ≡ high_in byte b c }
{
    match byte {
        134 => b,
        135 => b / 256 % 256,
        136 => b / 16777216,
        137 => c / 256 % 256,
        _ => c / 16777216,
    }
}

fn put_piece(byte: u8, a: u64, b: u64, c: u64, page: &mut Page)
    ensures { Wrote (piece byte a b c) page.old page.new }
{
    if byte < 128 {
        return page.put_byte(byte);
    }
    if byte < 131 {
        return page.put_number(number_in(byte, a, b, c));
    }
    if byte < 134 {
        let exit = exit_in(byte, a);
        return put_drawn(symbol_form(exit), exit, page);
    }
    put_range(low_in(byte, a, b, c), high_in(byte, b, c), page)
}

// A line, or a part of one, by its form and three numbers. (The zero ends it here too.)
pub(crate) fn put_form(form: usize, a: u64, b: u64, c: u64, page: &mut Page)
    ensures { Wrote (formed form a b c) page.old page.new }
{
    let mut i = form;
    let mut byte = form_byte(i);
    while 0 < byte {
        put_piece(byte, a, b, c, page);
        i += 1;
        byte = form_byte(i);
    }
}
