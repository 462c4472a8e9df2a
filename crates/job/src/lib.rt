// A job's bytes to the text that program `prove` prints. Words and text stand in buffers of the largest size, of which a part is used: there
// is no heap.
#![tactic(auto)]

ghost use Rattle.std.specs.Prelude.{◌≡◌, ◌/◌, ◌≤◌, length};
ghost use Rattle.domain.specs.BabyBear.{baby_bear};
ghost use Rattle.shared.specs.Meanings.{refusal_in};
ghost use Rattle.protocol.specs.Record.{words_in};
ghost use Rattle.text.specs.Buffer.{put};
ghost use Rattle.text.specs.Written.{Written};
ghost use Rattle.report.specs.Stages.{most_proof};
ghost use Rattle.job.specs.JobText.{too_long, too_short, head_bytes, head_refusal, job_text};
ghost use Rattle.job.specs.Parts.{words_text};

mod parts;

use circuit::checks::{check_counts, check_sizes};
use record::word_at;
use report::lines::put_refused;
use shared::Refusal;
use text::put_bytes;

// The most bytes of a job, and of its sizes and counts.
const MAX_BYTES: usize = 4096;

const HEAD_BYTES: usize = 24;

const WORD_BYTES: usize = 4;

const MAX_WORDS: usize = 1024;

// Room for every text.
pub const TEXT_BYTES: usize = 131072;

fn put_too_long(out: &mut [u8]) -> usize
    requires { most_proof ≤ length out.old }
    ensures { Written out.old 0 too_long result out.new }
{
    put_bytes(b"job too long\n", out, 0)
}

fn put_too_short(out: &mut [u8]) -> usize
    requires { most_proof ≤ length out.old }
    ensures { Written out.old 0 too_short result out.new }
{
    put_bytes(b"job too short\n", out, 0)
}

// The words of the bytes.
fn words_into(bytes: &[u8], words: &mut [u32])
    requires { length words.old ≡ length bytes.now / 4 }
    ensures { words.new ≡ words_in bytes.now }
{
    for (i, word) in words.iter_mut().enumerate() {
        *word = word_at(bytes, i);
    }
}

// 4 and 5.
fn judge_head(words: &[u32]) -> Result<(), Refusal>
    requires { 6 ≤ length words.now }
    ensures { refusal_in result ≡ head_refusal words.now }
{
    check_sizes(words[0], words[1], words[2])?;
    check_counts(words[3], words[4], words[5])
}

// A job of so many bytes, by its words.
fn put_words_text(count: usize, words: &[u32], out: &mut [u8]) -> usize
    requires words_len { length words.now ≡ count / 4 }
    requires head_bytes_le_count { head_bytes ≤ count }
    requires most_proof_in_bounds { most_proof ≤ length out.old }
    ensures { Written out.old 0 (words_text count words.now) result out.new }
{
    match judge_head(words) {
        Err(refusal) => put_refused(refusal, out, 0),
        Ok(()) => {
            let due = WORD_BYTES * parts::job_length(words);
            if due < count {
                return put_too_long(out);
            }
            if count < due {
                return put_too_short(out);
            }
            parts::put_whole(words, out)
        }
    }
}

fn put_text(bytes: &[u8], out: &mut [u8]) -> usize
    requires { most_proof ≤ length out.old }
    ensures { Written out.old 0 (job_text baby_bear bytes.now) result out.new }
{
    if bytes.len() > MAX_BYTES {
        return put_too_long(out);
    }
    if bytes.len() < HEAD_BYTES {
        return put_too_short(out);
    }
    let mut room = [0; MAX_WORDS];
    let words = &mut room[..bytes.len() / WORD_BYTES];
    words_into(bytes, words);
    put_words_text(bytes.len(), words, out)
}

// The text of a job: its length, and the text itself from the start of `out` on; what stands after it stays.
pub fn text(bytes: &[u8], out: &mut [u8; TEXT_BYTES]) -> usize
    ensures value { result ≡ length (job_text baby_bear bytes.now) }
    ensures out_after { out.new ≡ put out.old 0 (job_text baby_bear bytes.now) }
{
    put_text(bytes, out)
}
