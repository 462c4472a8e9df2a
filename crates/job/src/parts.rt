// A whole job by its parts: the places where they begin, its length, its challenges.
ghost use Rattle.std.specs.Prelude.{◌≡◌, ◌^◌, ◌≤◌, ◌<◌, length};
ghost use Rattle.std.proofs.Math.Option.{none};
ghost use Rattle.protocol.specs.Admission.{count_tests};
ghost use Rattle.protocol.specs.Calls.{circuit_of, entry_list_tests};
ghost use Rattle.domain.specs.BabyBear.{baby_bear};
ghost use Rattle.text.specs.Written.{Written};
ghost use Rattle.report.specs.ProofText.{outcome_text};
ghost use Rattle.report.specs.Stages.{job_drawn, most_proof};
ghost use Rattle.job.specs.JobText.{head_refusal, job_length, job_of};
ghost use Rattle.job.specs.Parts.{Placed, challenges_of, input_at};

use circuit::given::{Challenges, CircuitWords, ProverInput};
use outcome_text::whole::put_job;
use shared::{Three, Triple};

// The words before the entries: three sizes and three counts.
const HEAD_WORDS: usize = 6;

// α, three η, β, three δ, γ.
const CHALLENGES: usize = 9;

// Where the entries of B and C, z, r, m and the challenges begin.
#[derive(Clone, Copy)]
struct Places {
    b: usize,
    c: usize,
    z: usize,
    mask: usize,
    m: usize,
    challenges: usize,
}

// By the counts and |C|.
fn places_of(ws: &[u32]) -> Places
    requires { 6 ≤ length ws.now }
    ensures placed { Placed ws.now result }
    ensures challenges_bound { result.challenges < 2 ^ 36 }
{
    let columns = ws[1] as usize;
    let b = HEAD_WORDS + 3 * ws[3] as usize;
    let c = b + 3 * ws[4] as usize;
    let z = c + 3 * ws[5] as usize;
    let mask = z + columns;
    let m = mask + 1;
    Places {
        b,
        c,
        z,
        mask,
        m,
        challenges: m + 2 * columns,
    }
}

// The words of a whole job.
pub fn job_length(ws: &[u32]) -> usize
    requires { 6 ≤ length ws.now }
    ensures { result ≡ job_length ws.now }
{
    places_of(ws).challenges + CHALLENGES
}

// The last words of a job.
fn challenges_in(ws: &[u32]) -> Challenges
    requires { 9 ≤ length ws.now }
    ensures { result ≡ challenges_of ws.now }
{
    Challenges {
        alpha: ws[0],
        eta: Triple {
            a: ws[1],
            b: ws[2],
            c: ws[3],
        },
        beta: ws[4],
        delta: Triple {
            a: ws[5],
            b: ws[6],
            c: ws[7],
        },
        gamma: ws[8],
    }
}

// The parts from place to place, with the challenges.
fn put_parts(ws: &[u32], p: Places, drawn: Challenges, out: &mut [u8]) -> usize
    requires le_b { (6 ≤ p.b) × (p.b ≤ p.c) × (p.c ≤ p.z) × (p.z ≤ p.mask)
        × (p.mask < p.m) × (p.m ≤ p.challenges) × (p.challenges ≤ length ws.now) }
    requires end_value { entry_list_tests (input_at ws.now p.b p.c p.z p.mask p.m p.challenges).circuit
        ≡ count_tests (circuit_of (input_at ws.now p.b p.c p.z p.mask p.m p.challenges).circuit) }
    requires most_proof_in_bounds { most_proof ≤ length out.old }
    ensures { Written out.old 0
        (outcome_text baby_bear (job_drawn (input_at ws.now p.b p.c p.z p.mask p.m p.challenges) drawn)) result out.new }
{
    let input = ProverInput {
        circuit: CircuitWords {
            r: ws[0],
            c: ws[1],
            x: ws[2],
            matrices: Three {
                a: &ws[HEAD_WORDS..p.b],
                b: &ws[p.b..p.c],
                c: &ws[p.c..p.z],
            },
        },
        z: &ws[p.z..p.mask],
        mask: ws[p.mask],
        m: &ws[p.m..p.challenges],
    };
    put_job(&input, drawn, out)
}

// A whole job, taken apart.
pub fn put_whole(ws: &[u32], out: &mut [u8]) -> usize
    requires ws_value { head_refusal ws.now ≡ none }
    requires ws_len { length ws.now ≡ job_length ws.now }
    requires most_proof_in_bounds { most_proof ≤ length out.old }
    ensures { Written out.old 0 (outcome_text baby_bear (job_of ws.now)) result out.new }
{
    let p = places_of(ws);
    put_parts(ws, p, challenges_in(&ws[p.challenges..]), out)
}
