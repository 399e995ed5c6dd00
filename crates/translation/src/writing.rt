// Translate, after check: the words of the row system.
ghost use Rattle.std.specs.Prelude.{◌≡◌, ◌+◌, length};
ghost use Rattle.words.specs.Overlay.{overlay};
ghost use Rattle.models.specs.Model.{source_words};
ghost use Rattle.rules.specs.Translation.{system_words, all_blocks};
ghost use Rattle.translation.specs.Writable.{Writable};

use blocks::block;
use checking::read::ReadModel;
use encodings::context::Context;
use encodings::record_encoding;
use words::kind::Kind;
use words::list::lay;
use words::word::Word;

// Each block goes into the rest of the lent output, from where the last one ended, the first after the words of the variables; where the last block ends.
// A `for` with its own body, and no closure for all walks: see `encodings::count_uses`.
fn write_blocks(read: &ReadModel, out: &mut [u32]) -> usize
    requires { Writable read.now (length (source_words read.now.ws.now) + length (all_blocks read.now.ws.now)) (length out.old) }
    ensures end { result ≡ length (source_words read.now.ws.now) + length (all_blocks read.now.ws.now) }
    ensures output { out.new ≡ overlay out.old (length (source_words read.now.ws.now)) (all_blocks read.now.ws.now) }
{
    let mut first = read.model.variables;
    let mut at = read.model.sources;
    // fixed memory: a number for each variable that a model may have
    let mut encoded = [0usize; 256];
    for k in 0..read.model.constraints {
        let constraint = read.constraint(k);
        let context = Context {
            domains: &read.domains,
            uses: &read.uses,
            encoded: &encoded,
            first,
        };
        let laid = block(&mut out[at..], &constraint, read.sum(k), &context);
        record_encoding(&mut encoded, &constraint, &read.uses, first);
        first += laid.auxiliaries;
        at += laid.words;
    }
    at
}

// The words of the variables, the blocks, the end word.
pub fn write_system(read: &ReadModel, out: &mut [u32])
    requires { Writable read.now (length (system_words read.now.ws.now)) (length out.old) }
    ensures { out.new ≡ overlay out.old 0 (system_words read.now.ws.now) }
{
    lay(out, 0, &read.ws[..read.model.sources]);
    let at = write_blocks(read, out);
    lay(out, at, &[Word::new(Kind::RowsEnd, 0).bits()]);
}
