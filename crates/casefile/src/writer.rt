// The writer: any case as bytes, into a lent buffer.
ghost use Rattle.std.specs.Prelude.{◌≡◌, ◌≤◌, [], length, slice_index_or};
ghost use Rattle.cases.specs.Meanings.{amounts_of, rules_of};
ghost use Rattle.casefile.specs.Bytes.{field, options_field, charge_field, amount_fields, rule_fields, encode_told, written, buffer_after};
ghost use Rattle.casefile.specs.Laws.{Readable};
ghost use Rattle.casefile.specs.Inner.Writing.{Room, Wrote};

use cases::case::Case;
use cases::refusal::Refusal;

// A buffer that is written from the front, and how many bytes of it are written. Not what is left of it: the count is the writer's answer.
#[derive(Drop)]
struct Cursor<'a> {
    out: &'a mut [u8],
    at: usize,
}

impl Cursor<'_> {
    fn put(&mut self, part: &[u8])
        requires { Room self.old part.now }
        ensures { Wrote self.old part.now self.new }
    {
        let end = self.at + part.len();
        self.out[self.at..end].copy_from_slice(part);
        self.at = end;
    }

    fn put_options(&mut self, n: u16)
        requires { Room self.old (options_field n) }
        ensures { Wrote self.old (options_field n) self.new }
    {
        let [high, low] = n.to_be_bytes();
        self.put(&[1, 0, 2, high, low]);
    }

    // The amount's field, unless it is 0.
    fn put_amount(&mut self, l: u8, a: u32)
        requires { Room self.old (charge_field l a) }
        ensures { Wrote self.old (charge_field l a) self.new }
    {
        if a > 0 {
            let [top, high, mid, low] = a.to_be_bytes();
            self.put(&[2, 0, 5, l, top, high, mid, low]);
        }
    }

    // A case tells its amounts and rules by number, here and below, so there is no slice to go over. Nor one loop for the three: each
    // asks another question and calls another method.
    fn put_amounts<C: Case>(&mut self, case: &C)
        requires { Room self.old (amount_fields 0 (amounts_of (C.Case.meaning case.now))) }
        ensures { Wrote self.old (amount_fields 0 (amounts_of (C.Case.meaning case.now))) self.new }
    {
        for l in 0..2 * case.options() as u8 {
            self.put_amount(l, case.amount(l));
        }
    }

    fn put_rule<C: Case>(&mut self, case: &C, r: usize)
        requires { Room self.old (field 3 (slice_index_or (rules_of (C.Case.meaning case.now)) r [])) }
        ensures { Wrote self.old (field 3 (slice_index_or (rules_of (C.Case.meaning case.now)) r [])) self.new }
    {
        let len = case.rule_len(r);
        self.put(&[3, 0, len as u8]);
        for j in 0..len {
            self.put(&[case.literal(r, j)]);
        }
    }

    fn put_rules<C: Case>(&mut self, case: &C)
        requires { Room self.old (rule_fields (rules_of (C.Case.meaning case.now))) }
        ensures { Wrote self.old (rule_fields (rules_of (C.Case.meaning case.now))) self.new }
    {
        for r in 0..case.rules() {
            self.put_rule(case, r);
        }
    }

    fn put_case<C: Case>(&mut self, case: &C)
        requires { Room self.old (encode_told (C.Case.meaning case.now)) }
        ensures { Wrote self.old (encode_told (C.Case.meaning case.now)) self.new }
    {
        self.put_options(case.options() as u16);
        self.put_amounts(case);
        self.put_rules(case);
        self.put(&[4, 0, 0]);
    }
}

fn amount_len(l: u8, a: u32) -> usize
    ensures value { result ≡ length (charge_field l a) }
    ensures small { result ≤ 8 }
{
    if a == 0 { 0 } else { 8 }
}

fn rule_len<C: Case>(case: &C, r: usize) -> usize
    ensures value { result ≡ length (field 3 (slice_index_or (rules_of (C.Case.meaning case.now)) r [])) }
    ensures small { result ≤ 27 }
{
    3 + case.rule_len(r)
}

// Two functions and no generic one, here and in rules_len: each is one chain, over other numbers and with another bound.
fn amounts_len<C: Case>(case: &C) -> usize
    ensures value { result ≡ length (amount_fields 0 (amounts_of (C.Case.meaning case.now))) }
    ensures small { result ≤ 896 }
{
    (0..2 * case.options() as u8)
        .map(|l| amount_len(l, case.amount(l)))
        .sum()
}

fn rules_len<C: Case>(case: &C) -> usize
    ensures value { result ≡ length (rule_fields (rules_of (C.Case.meaning case.now))) }
    ensures small { result ≤ 13824 }
{
    (0..case.rules()).map(|r| rule_len(case, r)).sum()
}

// How many bytes a case takes.
pub fn encoded_len<C: Case>(case: &C) -> usize
    ensures { result ≡ length (encode_told (C.Case.meaning case.now)) }
{
    5 + amounts_len(case) + rules_len(case) + 3
}

// What `write` does, apart from it: so the further clause of `write` is proved once, and not at each return here.
fn write_bytes<C: Case>(case: &C, out: &mut [u8]) -> Result<usize, Refusal>
    ensures answers { result ≡ written (C.Case.meaning case.now) out.old }
    ensures leaves { out.new ≡ buffer_after (C.Case.meaning case.now) out.old }
{
    if case.oversize() {
        return Err(Refusal::Oversize);
    }
    if out.len() < encoded_len(case) {
        return Err(Refusal::ShortBuffer);
    }
    let mut cursor = Cursor { out, at: 0 };
    cursor.put_case(case);
    Ok(cursor.at)
}

// Writes the case and answers the length; the bytes after it stay. A refusal writes nothing. What is written reads back as
// the case's meaning.
#[tactic(auto, using(crate::proofs::Round::readable))]
pub fn write<C: Case>(case: &C, out: &mut [u8]) -> Result<usize, Refusal>
    ensures answers { result ≡ written (C.Case.meaning case.now) out.old }
    ensures leaves { out.new ≡ buffer_after (C.Case.meaning case.now) out.old }
    ensures reads { Readable (C.Case.meaning case.now) result out.new }
{
    write_bytes(case, out)
}
