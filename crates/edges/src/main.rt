// Prints the number values of paper 01, "Values at the edges", and of paper 02, (iv), the documents' worked examples, and then every byte
// as a character and floats of every exponent by each edition. A line has tabs between its fields.
#![tactic(auto)]

ghost use Rattle.std.specs.Prelude.{◌≤◌, ◌<◌};

use refusals::Refusal;
use std::fmt::Display;
use std::io;

// A step of the exponent, the sign bit, and the fractions that a line tries.
const EXPONENT_STEP: u32 = 0x800000;

const SIGN: u32 = 0x80000000;

const HALF: u32 = 0x400000;

const LIMIT: u32 = 0x7A0000;

const LAST: u32 = 0x7FFFFF;

// A tab, and the value or the refusal.
fn print_answer<T: Display + Copy>(rt: &impl Print, answer: Result<T, Refusal>) -> io::Result<()> {
    match answer {
        Ok(value) => print!(rt; "\t{value}"),
        Err(refusal) => print!(rt; "\t{refusal}"),
    }
}

fn end_line(rt: &impl Print) -> io::Result<()> {
    rt.print("\n")
}

// The rule, the edition, the bits and their millimetres.
fn float(rt: &impl Print, edition: u32, bits: u32) -> io::Result<()> {
    print!(rt; "float\t{edition}\t{bits:08x}")?;
    print_answer(rt, units::coordinate_to_millimetres(edition, bits))?;
    end_line(rt)
}

fn decibels(rt: &impl Print, character: u8) -> io::Result<()> {
    print!(rt; "dB\t-\t{character}")?;
    print_answer(rt, character_units::decibels_of(character))?;
    end_line(rt)
}

fn phase(rt: &impl Print, character: u8) -> io::Result<()> {
    print!(rt; "phase\t-\t{character}")?;
    print_answer(rt, character_units::centidegrees_of(character))?;
    end_line(rt)
}

fn accuracy(rt: &impl Print, edition: u32, tenths: u16) -> io::Result<()> {
    print!(rt; "accuracy\t{edition}\t{tenths:04x}")?;
    print_answer(rt, units::accuracy_to_millimetres(edition, tenths))?;
    end_line(rt)
}

// The floats of the paper's table, in its order, by an edition.
fn table_floats(rt: &impl Print, edition: u32) -> io::Result<()> {
    float(rt, edition, 0x3D800000)?;
    float(rt, edition, 0xBD800000)?;
    float(rt, edition, 0x3E400000)?;
    float(rt, edition, 0xBE400000)?;
    float(rt, edition, 0x80000000)?;
    float(rt, edition, 0x447A0000)?;
    float(rt, edition, 0x447A0001)?;
    float(rt, edition, 0x7F800000)
}

// Floats that have a value, are infinite and are too far, by an edition that there is none of.
fn refused_floats(rt: &impl Print, edition: u32) -> io::Result<()> {
    float(rt, edition, 0x3D800000)?;
    float(rt, edition, 0x7F800000)?;
    float(rt, edition, 0x447A0001)
}

// The accuracies of both papers by an edition, the one that document 000 works out, and the greatest.
fn table_accuracies(rt: &impl Print, edition: u32) -> io::Result<()> {
    accuracy(rt, edition, 0x0005)?;
    accuracy(rt, edition, 0x000F)?;
    accuracy(rt, edition, 0x0019)?;
    accuracy(rt, edition, 0x0023)?;
    accuracy(rt, edition, 0x0205)?;
    accuracy(rt, edition, 0x0200)?;
    accuracy(rt, edition, 0xFFFF)
}

fn table(rt: &impl Print) -> io::Result<()> {
    rt.print("rule\tedition\tinput\tresult\n")?;
    table_floats(rt, 1)?;
    table_floats(rt, 2)?;
    refused_floats(rt, 0)?;
    refused_floats(rt, 3)?;
    refused_floats(rt, 0xFFFFFFFF)?;
    decibels(rt, 90)?;
    phase(rt, 90)?;
    phase(rt, 36)?;
    table_accuracies(rt, 1)?;
    table_accuracies(rt, 2)?;
    accuracy(rt, 0, 0x0005)?;
    accuracy(rt, 3, 0x0005)?;
    accuracy(rt, 0xFFFFFFFF, 0x0005)
}

fn character(rt: &impl Print, byte: u8) -> io::Result<()> {
    rt.print(byte)?;
    print_answer(rt, character_units::decibels_of(byte))?;
    print_answer(rt, character_units::centidegrees_of(byte))?;
    end_line(rt)
}

fn characters(rt: &impl Print) -> io::Result<()> {
    rt.print("byte\tdB\tphase\n")?;
    for byte in 0..=255 {
        character(rt, byte)?;
    }
    Ok(())
}

// By an edition, the floats of one sign and exponent with the first two fractions, the middle one, those at 1000 m and the last.
fn floats(rt: &impl Print, edition: u32, start: u32) -> io::Result<()>
    requires { start ≤ 4286578688 }
{
    print_answer(rt, units::coordinate_to_millimetres(edition, start))?;
    print_answer(rt, units::coordinate_to_millimetres(edition, start + 1))?;
    print_answer(rt, units::coordinate_to_millimetres(edition, start + HALF))?;
    print_answer(rt, units::coordinate_to_millimetres(edition, start + LIMIT))?;
    print_answer(
        rt,
        units::coordinate_to_millimetres(edition, start + LIMIT + 1),
    )?;
    print_answer(rt, units::coordinate_to_millimetres(edition, start + LAST))
}

fn exponent(rt: &impl Print, edition: u32, e: u32) -> io::Result<()>
    requires { e < 256 }
{
    print!(rt; "{edition}\t{e}")?;
    let start = EXPONENT_STEP * e;
    floats(rt, edition, start)?;
    floats(rt, edition, SIGN + start)?;
    end_line(rt)
}

fn exponents(rt: &impl Print, edition: u32) -> io::Result<()> {
    rt.print(
        "edition\texponent\t000000\t000001\t400000\t7a0000\t7a0001\t7fffff\t-000000\t-000001\t-400000\t-7a0000\t-7a0001\t-7fffff\n",
    )?;
    for e in 0..256 {
        exponent(rt, edition, e)?;
    }
    Ok(())
}

fn main(rt: HostRuntime) -> io::Result<()> {
    table(&rt)?;
    characters(&rt)?;
    exponents(&rt, 1)?;
    exponents(&rt, 2)
}
