// The program's lines, into lent bytes. Each function is given the place where its text begins, and gives the place behind it.
#![tactic(auto)]

ghost use Rattle.std.specs.Prelude.{map};
ghost use Rattle.model.specs.Lists.{concat};
ghost use Rattle.model.specs.Text.{spaced, signed_part};
ghost use Rattle.model.specs.Output.{kind_name, rule_name, choice_line, result_line};
ghost use Rattle.model.specs.Output as Output;
ghost use Rattle.answers.specs.Answers.{refusal_of};
ghost use Rattle.eval.specs.Given.{values_of, looked_of};
ghost use Rattle.steps.specs.Choice.{made_of};
ghost use Rattle.puts.specs.Puts.{Puts};

use answers::{No, Refusal, Rule};
use eval::Values;

// A space, and the name of a choice's kind; a bad kind is a number, so it is no enum.
#[tactic(auto, using(crate::proofs::Names::kinds))]
fn kind_name(out: &mut [u8], at: usize, kind: u8) -> usize
    ensures { Puts out.old at (spaced (kind_name kind)) result out.new }
{
    match kind {
        0 => puts::bytes(out, at, b" step"),
        1 => puts::bytes(out, at, b" promote"),
        _ => text::part(out, at, kind as u64),
    }
}

// A space, and the name of a rule.
#[tactic(auto, using(crate::proofs::Names::rule_names))]
fn rule_name(out: &mut [u8], at: usize, rule: Rule) -> usize
    ensures { Puts out.old at (spaced (rule_name rule.0)) result out.new }
{
    match rule {
        Rule::STMT => puts::bytes(out, at, b" stmt"),
        Rule::GOTO => puts::bytes(out, at, b" goto"),
        Rule::THEN => puts::bytes(out, at, b" then"),
        Rule::ELSE => puts::bytes(out, at, b" else"),
        Rule::CALL => puts::bytes(out, at, b" call"),
        Rule::RETURN => puts::bytes(out, at, b" return"),
        Rule::SPORK => puts::bytes(out, at, b" spork"),
        Rule::UNPR => puts::bytes(out, at, b" unpr"),
        Rule::PROM => puts::bytes(out, at, b" prom"),
        _ => puts::bytes(out, at, b" promote"),
    }
}

// A refusal: its number, and its place where it has one.
#[tactic(auto, using(crate::proofs::Refusals::refusals))]
pub fn refusal(out: &mut [u8], at: usize, why: Refusal) -> usize
    ensures { Puts out.old at (Output.refusal (refusal_of why)) result out.new }
{
    let k = puts::bytes(out, at, b"refused");
    match why {
        Refusal::Plain(number) => text::part(out, k, number.0 as u64),
        Refusal::Byte(place) => {
            let k = text::part(out, k, No::FORM.0 as u64);
            text::part(out, k, place as u64)
        }
        Refusal::Fault(number, function, block) => {
            let k = text::part(out, k, number.0 as u64);
            let k = text::part(out, k, function as u64);
            text::part(out, k, block as u64)
        }
    }
}

// A space, and what a choice answers.
#[tactic(auto, using(crate::proofs::Refusals::answers))]
fn told(out: &mut [u8], at: usize, made: Result<Rule, No>) -> usize
    ensures { Puts out.old at (spaced (Output.told (made_of made))) result out.new }
{
    match made {
        Ok(rule) => rule_name(out, at, rule),
        Err(number) => {
            let k = puts::bytes(out, at, b" refused");
            text::part(out, k, number.0 as u64)
        }
    }
}

// The line of a choice.
pub fn choice(
    out: &mut [u8],
    at: usize,
    index: u64,
    kind: u8,
    thread: u8,
    made: Result<Rule, No>,
) -> usize
    ensures { Puts out.old at (choice_line index kind thread (made_of made)) result out.new }
{
    let k = text::decimal(out, at, index);
    let k = kind_name(out, k, kind);
    let k = text::part(out, k, thread as u64);
    let k = told(out, k, made);
    text::line(out, k)
}

// Values, a space before each.
fn values(out: &mut [u8], at: usize, v: Values) -> usize
    ensures { Puts out.old at (concat (map signed_part (values_of v))) result out.new }
{
    let mut k = at;
    for x in &v.at[..(v.count as usize).min(Values::MOST)] {
        k = text::signed_part(out, k, *x);
    }
    k
}

// The last line: main's values, or that they are open.
pub fn result(out: &mut [u8], at: usize, main: Option<Values>) -> usize
    ensures { Puts out.old at (result_line (looked_of main)) result out.new }
{
    let k = puts::bytes(out, at, b"result");
    let k = match main {
        Some(v) => values(out, k, v),
        None => puts::bytes(out, k, b" open"),
    };
    text::line(out, k)
}
