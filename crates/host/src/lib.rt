// Calls for a host written in C: the calls over lists of words, values and bytes, and check over bytes.
#![tactic(auto)]

ghost use Rattle.std.specs.Prelude.{◌≡◌, List, ℕ, ◌*◌, ◌≤◌, length};
ghost use Rattle.words.specs.Variables.{variables};
ghost use Rattle.encoding.specs.Bytes.{bytes_words};
ghost use Rattle.models.specs.JudgeModel.{judge_model};
ghost use Rattle.rowsystems.specs.JudgeRows.{judge_rows};
ghost use Rattle.rules.specs.Check.{check as check_answer};
ghost use Rattle.rules.specs.Translate.{translate as translate_answer, translated};
ghost use Rattle.rules.specs.Fill.{fill as fill_answer, filled};
ghost use Rattle.sheets.specs.Sheet.{sheet as sheet_answer, sheet_page};
ghost use Rattle.sheets.specs.EightyColumns.{EightyColumns};
ghost use Rattle.translation.specs.Shares.{Shares};
ghost use Rattle.filling.specs.HandsOver.{HandsOver};
ghost use Rattle.filling.specs.Satisfied.{Satisfied};
ghost use Rattle.pairs.specs.Calls.{pair_check, pair_translate, pair_translated, pair_judge, pair_fill, pair_filled};
ghost use Rattle.pairs.specs.HandsOver.{PairHandsOver};
ghost use Rattle.pairs.specs.Pair.{model_of};
ghost use Rattle.pairs.specs.Alone.{OtherWrote};
ghost use Rattle.pairs.specs.FaultyTable.{RefusedByTable};
ghost use Rattle.texts.specs.Text.{read_text, text_read};
ghost use Rattle.texts.specs.ModelWords.{ModelWords};
ghost use Rattle.texts.specs.RightText.{ReadsRight};
ghost use Rattle.bitforms.specs.FormAnswer.{bit_form, bit_formed};
ghost use Rattle.bitsharing.specs.FormShares.{FormShares};
ghost use Rattle.bitanswers.specs.ReadValues.{bit_values as bit_values_answer, bit_valued};
ghost use Rattle.bitanswers.specs.BitEnergy.{AnswersForm, bit_energy as bit_energy_answer};
ghost use Rattle.bitanswers.specs.BitsAnswer.{BitsRead, value_bits_answer, value_bits_written};
ghost use Rattle.bitsharing.specs.ReadShares.{EnergyShares, ValuesShare};
ghost use Rattle.bestforms.specs.Numbered.{best_bits_by as best_bits_answer, best_bitted_by, NumberedShares};
ghost use Rattle.solutions.specs.Solutions.{solutions_answer, solutions_listed};
ghost use Rattle.solutions.specs.AllSolutions.{AllSolutions};
ghost use Rattle.reasons.specs.Reason.{reason as reason_answer};
ghost use Rattle.reasons.specs.Behind.{TrueReason};
ghost use Rattle.host.specs.Bytes.{check_bytes};
ghost use Rattle.structs.specs.Structs.{counts_of, energy_struct_of, explanation_of, judgement_of, listed_of, printed_of, written_values_of, written_words_of};

use bestbits::best_bits_by;
use bitenergy::bit_energy;
use bitform::bit_form;
use bitvalues::bit_values;
use checking::check;
use encoding::words_of_bytes;
use filling::fill;
use modeljudge::judge_model;
use pairs::{pair_check, pair_fill, pair_judge_model, pair_translate};
use reasoning::reason;
use rowjudge::judge_rows;
use sheets::sheet;
use solutions::solutions;
use structs::{
    Counts, Energy, Explanation, Judgement, Listed, PrintedBytes, WrittenValues, WrittenWords,
    refusal_number,
};
use texts::read_text;
use translation::translate;
use valuebits::value_bits;
use words::fault::Fault;
use words::limit;

// Fixed memory: no call uses the heap. Models of at most so many words are copied to a shorter list, since the whole list is cleared first.
const SHORT: usize = 512;

// Check over bytes whose words fit the list that they are copied to.
fn check_in(bytes: &[u8], words: &mut [u32]) -> u32
    requires { length (bytes_words bytes.now) ≤ length words.old }
    ensures { result ≡ check_bytes bytes.now }
{
    let n = words_of_bytes(bytes, words);
    refusal_number(check(&words[..n]))
}

// Check over bytes, four to a word, the lowest first, 1 to 3 spare bytes left off: the number of the refusal, 0 if accepted.
#[unsafe(no_mangle)]
pub extern "C" fn pearrummy_check_bytes(bytes: &[u8]) -> u32
    ensures { result ≡ check_bytes bytes.now }
{
    if limit::MODEL_WORDS < bytes.len() / 4 {
        return Fault::TooManyWords.number();
    }
    if bytes.len() / 4 <= SHORT {
        let mut words = [0u32; SHORT];
        return check_in(bytes, &mut words);
    }
    let mut words = [0u32; limit::MODEL_WORDS];
    check_in(bytes, &mut words)
}

// Check.
#[unsafe(no_mangle)]
pub extern "C" fn pearrummy_check(words: &[u32]) -> Counts
    ensures { result ≡ counts_of (check_answer words.now) }
{
    Counts::from(check(words))
}

// Translate; the words of the row system go to the front of the output.
#[unsafe(no_mangle)]
pub extern "C" fn pearrummy_translate(words: &[u32], out: &mut [u32]) -> WrittenWords
    ensures answer { result ≡ written_words_of (translate_answer words.now (length out.old)) }
    ensures output { out.new ≡ translated words.now out.old }
    ensures room { result.words ≤ length out.new }
    ensures shared { Shares words.now (translate_answer words.now (length out.old)) out.new }
{
    WrittenWords::from(translate(words, out))
}

// Judge-model.
#[unsafe(no_mangle)]
pub extern "C" fn pearrummy_judge_model(words: &[u32], values: &[i32]) -> Judgement
    ensures { result ≡ judgement_of (judge_model words.now values.now) }
{
    Judgement::from(judge_model(words, values))
}

// Judge-rows.
#[unsafe(no_mangle)]
pub extern "C" fn pearrummy_judge_rows(words: &[u32], values: &[i32]) -> Judgement
    ensures { result ≡ judgement_of (judge_rows words.now values.now) }
{
    Judgement::from(judge_rows(words, values))
}

// Fill; where the values hold, they and the auxiliaries go to the front of the output.
#[unsafe(no_mangle)]
pub extern "C" fn pearrummy_fill(words: &[u32], values: &[i32], out: &mut [i32]) -> Judgement
    ensures answer { result ≡ judgement_of (fill_answer words.now values.now (length out.old)) }
    ensures output { out.new ≡ filled words.now values.now out.old }
    ensures room { result.said ≡ 1 → result.at ≤ length out.new }
    ensures satisfied { Satisfied words.now (fill_answer words.now values.now (length out.old)) out.new }
    ensures completes { let ws = words.now in let vs = values.now in let o = out.old in HandsOver ws vs (fill_answer ws vs (length o)) o out.new }
{
    Judgement::from(fill(words, values, out))
}

// Sheet; the lines of the rows go to the front of the page.
#[unsafe(no_mangle)]
pub extern "C" fn pearrummy_sheet(words: &[u32], page: &mut [u8]) -> PrintedBytes
    ensures answer { result ≡ printed_of (sheet_answer words.now (length page.old)) }
    ensures page { page.new ≡ sheet_page words.now page.old }
    ensures room { result.bytes ≤ length page.new }
    ensures lines { EightyColumns (sheet_answer words.now (length page.old)) page.new }
{
    PrintedBytes::from(sheet(words, page))
}

// Text; the words of the model that a text of FlatZinc writes go to the front of the output.
#[unsafe(no_mangle)]
pub extern "C" fn pearrummy_text(text: &[u8], out: &mut [u32]) -> WrittenWords
    ensures answer { result ≡ written_words_of (read_text text.now (length out.old)) }
    ensures output { out.new ≡ text_read text.now out.old }
    ensures room { result.words ≤ length out.new }
    ensures words { ModelWords (read_text text.now (length out.old)) out.new }
    ensures right { ReadsRight text.now (read_text text.now (length out.old)) out.new }
{
    WrittenWords::from(read_text(text, out))
}

// Every solution of a small model goes to the front of the output, one after another.
#[unsafe(no_mangle)]
pub extern "C" fn pearrummy_solutions(words: &[u32], out: &mut [i32]) -> Listed
    ensures answer { result ≡ listed_of (solutions_answer words.now (length out.old)) }
    ensures output { out.new ≡ solutions_listed words.now out.old }
    ensures room { result.solutions * length (variables words.now) ≤ length out.new }
    ensures all { AllSolutions words.now (solutions_answer words.now (length out.old)) out.new }
{
    Listed::from(solutions(words, out))
}

// Check of a candidate's model; candidate 1 is the first, every other number the second. The candidate is a number, and the pair has calls of its own:
// so the header for C has them.
#[unsafe(no_mangle)]
pub extern "C" fn pearrummy_pair_check(words: &[u32], candidate: u32) -> Counts
    ensures answer { result ≡ counts_of (pair_check candidate words.now) }
    ensures alone { (us : List ℕ) → OtherWrote candidate words.now us → result ≡ counts_of (pair_check candidate us) }
    ensures faulty { RefusedByTable candidate words.now (pair_check candidate words.now) }
{
    Counts::from(pair_check(words, candidate))
}

// Translate of a candidate's model.
#[unsafe(no_mangle)]
pub extern "C" fn pearrummy_pair_translate(
    words: &[u32],
    candidate: u32,
    out: &mut [u32],
) -> WrittenWords
    ensures answer { result ≡ written_words_of (pair_translate candidate words.now (length out.old)) }
    ensures output { out.new ≡ pair_translated candidate words.now out.old }
    ensures room { result.words ≤ length out.new }
    ensures shared { Shares (model_of candidate words.now) (pair_translate candidate words.now (length out.old)) out.new }
    ensures alone { (us : List ℕ) → OtherWrote candidate words.now us → (result ≡ written_words_of (pair_translate candidate us (length out.old))) × (out.new ≡ pair_translated candidate us out.old) }
    ensures faulty { RefusedByTable candidate words.now (pair_translate candidate words.now (length out.old)) }
{
    WrittenWords::from(pair_translate(words, candidate, out))
}

// Judge-model of a candidate's model.
#[unsafe(no_mangle)]
pub extern "C" fn pearrummy_pair_judge_model(
    words: &[u32],
    candidate: u32,
    values: &[i32],
) -> Judgement
    ensures answer { result ≡ judgement_of (pair_judge candidate words.now values.now) }
    ensures alone { (us : List ℕ) → OtherWrote candidate words.now us → result ≡ judgement_of (pair_judge candidate us values.now) }
    ensures faulty { RefusedByTable candidate words.now (pair_judge candidate words.now values.now) }
{
    Judgement::from(pair_judge_model(words, candidate, values))
}

// Fill of a candidate's model.
#[unsafe(no_mangle)]
pub extern "C" fn pearrummy_pair_fill(
    words: &[u32],
    candidate: u32,
    values: &[i32],
    out: &mut [i32],
) -> Judgement
    ensures answer { result ≡ judgement_of (pair_fill candidate words.now values.now (length out.old)) }
    ensures output { out.new ≡ pair_filled candidate words.now values.now out.old }
    ensures room { result.said ≡ 1 → result.at ≤ length out.new }
    ensures satisfied { let ws = words.now in Satisfied (model_of candidate ws) (pair_fill candidate ws values.now (length out.old)) out.new }
    ensures completes { let ws = words.now in let vs = values.now in let o = out.old in PairHandsOver candidate ws vs (pair_fill candidate ws vs (length o)) o out.new }
    ensures alone { (us : List ℕ) → OtherWrote candidate words.now us → (result ≡ judgement_of (pair_fill candidate us values.now (length out.old))) × (out.new ≡ pair_filled candidate us values.now out.old) }
    ensures faulty { RefusedByTable candidate words.now (pair_fill candidate words.now values.now (length out.old)) }
{
    Judgement::from(pair_fill(words, candidate, values, out))
}

// Reason; the first failing row of a model's row system, the constraint whose block holds it, and why.
#[unsafe(no_mangle)]
pub extern "C" fn pearrummy_reason(words: &[u32], values: &[i32]) -> Explanation
    ensures answer { result ≡ explanation_of (reason_answer words.now values.now) }
    ensures behind { TrueReason words.now values.now (reason_answer words.now values.now) }
{
    Explanation::from(reason(words, values))
}

// Bits; the words of the form of a row system go to the front of the output.
#[unsafe(no_mangle)]
pub extern "C" fn pearrummy_bits(words: &[u32], out: &mut [u32]) -> WrittenWords
    ensures answer { result ≡ written_words_of (bit_form words.now (length out.old)) }
    ensures output { out.new ≡ bit_formed words.now out.old }
    ensures room { result.words ≤ length out.new }
    ensures shared { FormShares words.now (bit_form words.now (length out.old)) out.new }
{
    WrittenWords::from(bit_form(words, out))
}

// Bit_values; the values that bits read as go to the front of the output.
#[unsafe(no_mangle)]
pub extern "C" fn pearrummy_bit_values(words: &[u32], bits: &[u8], out: &mut [i32]) -> WrittenValues
    ensures answer { result ≡ written_values_of (bit_values_answer words.now bits.now (length out.old)) }
    ensures output { out.new ≡ bit_valued words.now bits.now out.old }
    ensures room { result.values ≤ length out.new }
    ensures shared { ValuesShare words.now bits.now (bit_values_answer words.now bits.now (length out.old)) out.new }
{
    WrittenValues::from(bit_values(words, bits, out))
}

// Bit_energy; the energy at some bits.
#[unsafe(no_mangle)]
pub extern "C" fn pearrummy_bit_energy(words: &[u32], bits: &[u8]) -> Energy
    ensures answer { result ≡ energy_struct_of (bit_energy_answer words.now bits.now) }
    ensures form { AnswersForm words.now bits.now (bit_energy_answer words.now bits.now) }
    ensures shared { EnergyShares words.now bits.now (bit_energy_answer words.now bits.now) }
{
    Energy::from(bit_energy(words, bits))
}

// Value_bits; where judge-rows says that the values hold, their bits go to the front of the output.
#[unsafe(no_mangle)]
pub extern "C" fn pearrummy_value_bits(words: &[u32], values: &[i32], out: &mut [u8]) -> Judgement
    ensures answer { result ≡ judgement_of (value_bits_answer words.now values.now (length out.old)) }
    ensures output { out.new ≡ value_bits_written words.now values.now out.old }
    ensures room { result.said ≡ 1 → result.at ≤ length out.new }
    ensures read { BitsRead words.now values.now (value_bits_answer words.now values.now (length out.old)) out.new }
{
    Judgement::from(value_bits(words, values, out))
}

// Best_bits; the words of the form whose least bits are a best solution go to the front of the output. The direction is a number: 0 the least, 1 the greatest.
#[unsafe(no_mangle)]
pub extern "C" fn pearrummy_best_bits(
    words: &[u32],
    variable: usize,
    direction: u32,
    out: &mut [u32],
) -> WrittenWords
    ensures answer { result ≡ written_words_of (best_bits_answer words.now variable direction (length out.old)) }
    ensures output { out.new ≡ best_bitted_by words.now variable direction out.old }
    ensures room { result.words ≤ length out.new }
    ensures shared { NumberedShares words.now variable direction (best_bits_answer words.now variable direction (length out.old)) out.new }
{
    WrittenWords::from(best_bits_by(words, variable, direction, out))
}
