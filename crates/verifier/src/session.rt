// The verifier's session. Each step takes the session and gives back the next one with its answer, or the same one where the step is
// refused. The openings may be asked about as often as wished, which leaves the session as it is; committing them closes it, and then
// every step but opening is out of turn.
ghost use Rattle.std.specs.Prelude.{◌≡◌, ◌++◌, suc, ◌+◌, ◌-◌, ◌≤◌, length, replicate};
ghost use Rattle.std.proofs.Math.Option.{none};
ghost use Rattle.std.proofs.Math.Seq.{paste};
ghost use Rattle.domain.specs.Size.{max_size};
ghost use Rattle.domain.specs.BabyBear.{baby_bear};
ghost use Rattle.protocol.specs.Session.{unopened, blank, unless, onward, open_step, alpha_step, eta_step, beta_step, delta_step, gamma_step, ask_step, commit_step};
ghost use Rattle.protocol.specs.Session as steps;
ghost use Rattle.shared.specs.Meanings.{refusal_in, three, sizes, transcript};
ghost use Rattle.shared.specs.Meanings as meanings;
ghost use Rattle.verifier.specs.Session.{session_meaning, stepped_meaning, openings_answer_meaning, openings_stepped_meaning, session_of, session_words, transcript_of, three_at};

use field::MODULE_PRIME;
use shared::{Opened, Refusal, Sizes, Transcript, Triple, Verdict};
use step_refusals::holdings::transcript_words;
use step_refusals::refusals;

// The steps taken, the sizes, the public words with zeros after them, and the transcript. The stage is a number and no enum: the
// definition of a session counts steps, and a session read from words keeps any word that stands in the stage's place.
#[derive(Clone, Copy)]
pub struct Session {
    stage: u32,
    sizes: Sizes,
    x: [u32; 1024],
    transcript: Transcript,
}

// The next session and the answer to a step. Before the openings a step that is taken answers nothing more; openings, asked about or
// committed, are answered with the verdict, so that the last step's answer carries the enum of verdicts.
#[derive(Clone, Copy)]
pub struct Stepped<T> {
    pub session: Session,
    pub answer: Result<T, Refusal>,
}

// A session as words: the stage, the six sizes, the words of x, and the transcript.
pub const SESSION_WORDS: usize = 1046;

const X_START: usize = 7;

const TRANSCRIPT_START: usize = 1031;

// A transcript before anything is heard.
fn nothing_heard() -> Transcript
    ensures { transcript result ≡ blank }
{
    let zeros = Triple { a: 0, b: 0, c: 0 };
    Transcript {
        alpha: 0,
        sums: zeros,
        eta: zeros,
        beta: 0,
        values: zeros,
        delta: zeros,
        gamma: 0,
    }
}

// The words, and zeros after them.
fn padded(words: &[u32]) -> [u32; 1024]
    requires { length words.now ≤ max_size }
    ensures { result ≡ words.now ++ replicate (max_size - length words.now) 0 }
{
    let mut x = [0u32; 1024];
    x[..words.len()].copy_from_slice(words);
    x
}

// The source's words from a place on.
fn put_words(out: &mut [u32], at: usize, source: &[u32])
    requires { at + length source.now ≤ length out.old }
    ensures { out.new ≡ paste out.old at source.now (length source.now) }
{
    out[at..at + source.len()].copy_from_slice(source);
}

// Three words from a place on.
fn triple_at(words: &[u32; SESSION_WORDS], at: usize) -> Triple
    requires { at + 3 ≤ 1046 }
    ensures { three result ≡ three_at words.now at }
{
    Triple {
        a: words[at],
        b: words[at + 1],
        c: words[at + 2],
    }
}

// The transcript, from a session's words.
fn transcript_in(words: &[u32; SESSION_WORDS]) -> Transcript
    ensures { transcript result ≡ transcript_of words.now }
{
    Transcript {
        alpha: words[TRANSCRIPT_START],
        sums: triple_at(words, TRANSCRIPT_START + 1),
        eta: triple_at(words, TRANSCRIPT_START + 4),
        beta: words[TRANSCRIPT_START + 7],
        values: triple_at(words, TRANSCRIPT_START + 8),
        delta: triple_at(words, TRANSCRIPT_START + 11),
        gamma: words[TRANSCRIPT_START + 14],
    }
}

impl Session {
    // The session with these words, also one that no step made.
    pub fn from_words(words: &[u32; SESSION_WORDS]) -> Session
        ensures { session_meaning result ≡ session_of words.now }
    {
        Session {
            stage: words[0],
            sizes: Sizes {
                r: words[1],
                c: words[2],
                x: words[3],
                k: triple_at(words, 4),
            },
            x: padded(&words[X_START..TRANSCRIPT_START]),
            transcript: transcript_in(words),
        }
    }

    // The words of the session.
    pub fn into_words(self, out: &mut [u32; SESSION_WORDS])
        ensures { out.new ≡ session_words (session_meaning self) }
    {
        let s = self.sizes;
        let first = [self.stage, s.r, s.c, s.x, s.k.a, s.k.b, s.k.c];
        put_words(out, 0, &first);
        put_words(out, X_START, &self.x);
        put_words(out, TRANSCRIPT_START, &transcript_words(self.transcript));
    }

    // A session before it is opened.
    pub fn new() -> Session
        ensures { session_meaning result ≡ unopened }
    {
        Session {
            stage: 0,
            sizes: Sizes {
                r: 0,
                c: 0,
                x: 0,
                k: Triple { a: 0, b: 0, c: 0 },
            },
            x: [0u32; 1024],
            transcript: nothing_heard(),
        }
    }

    // The same session, and the refusal.
    fn refused(self, refusal: Refusal) -> Stepped<()>
        ensures { stepped_meaning result ≡ record { session = session_meaning self; answer = steps.Refused (meanings.refusal refusal) } }
    {
        Stepped {
            session: self,
            answer: Err(refusal),
        }
    }

    // A step by its judgement: refused, or the session one step on, with this transcript.
    fn step(self, judgement: Result<(), Refusal>, stage: u32, transcript: Transcript) -> Stepped<()>
        requires { refusal_in judgement ≡ none → stage ≡ suc self.stage }
        ensures { stepped_meaning result
            ≡ unless (refusal_in judgement) (session_meaning self) (onward (session_meaning self) (meanings.transcript transcript) steps.Taken) }
    {
        match judgement {
            Err(refusal) => self.refused(refusal),
            Ok(()) => {
                let next = Session {
                    stage,
                    transcript,
                    ..self
                };
                Stepped {
                    session: next,
                    answer: Ok(()),
                }
            }
        }
    }

    // Opening makes a new session, and is never out of turn. Refusals: 4 for a size, 5 for x, 6 for a word, 13 for x's first word.
    pub fn open(self, s: Sizes, x: &[u32]) -> Stepped<()>
        ensures { stepped_meaning result ≡ open_step baby_bear (session_meaning self) (sizes s) x.now }
    {
        match refusals::judge_open(MODULE_PRIME, s, x) {
            Err(refusal) => self.refused(refusal),
            Ok(()) => {
                let opened = Session {
                    stage: 1,
                    sizes: s,
                    x: padded(x),
                    transcript: nothing_heard(),
                };
                Stepped {
                    session: opened,
                    answer: Ok(()),
                }
            }
        }
    }

    // Declared lengths of ŵ, m, h0, then α.
    pub fn alpha(self, witness: u32, mask: u32, quotient: u32, alpha: u32) -> Stepped<()>
        ensures { stepped_meaning result ≡ alpha_step baby_bear (session_meaning self) witness mask quotient alpha }
    {
        let judgement = refusals::judge_alpha(
            MODULE_PRIME,
            self.stage,
            self.sizes,
            witness,
            mask,
            quotient,
            alpha,
        );
        let t = Transcript {
            alpha,
            ..self.transcript
        };
        self.step(judgement, 2, t)
    }

    // The three σ, then the three η.
    pub fn eta(self, sums: Triple, eta: Triple) -> Stepped<()>
        ensures { stepped_meaning result ≡ eta_step baby_bear (session_meaning self) (three sums) (three eta) }
    {
        let judgement = refusals::judge_eta(MODULE_PRIME, self.stage, self.sizes, sums, eta);
        let t = Transcript {
            sums,
            eta,
            ..self.transcript
        };
        self.step(judgement, 3, t)
    }

    // Declared lengths of g1, h1, then β.
    pub fn beta(self, remainder: u32, quotient: u32, beta: u32) -> Stepped<()>
        ensures { stepped_meaning result ≡ beta_step baby_bear (session_meaning self) remainder quotient beta }
    {
        let judgement = refusals::judge_beta(
            MODULE_PRIME,
            self.stage,
            self.sizes,
            remainder,
            quotient,
            beta,
        );
        let t = Transcript {
            beta,
            ..self.transcript
        };
        self.step(judgement, 4, t)
    }

    // The three ω and declared lengths of the g_M, then the three δ.
    pub fn delta(self, values: Triple, remainders: Triple, delta: Triple) -> Stepped<()>
        ensures { stepped_meaning result ≡ delta_step baby_bear (session_meaning self) (three values) (three remainders) (three delta) }
    {
        let judgement = refusals::judge_delta(
            MODULE_PRIME,
            self.stage,
            self.sizes,
            values,
            remainders,
            delta,
        );
        let t = Transcript {
            values,
            delta,
            ..self.transcript
        };
        self.step(judgement, 5, t)
    }

    // Declared length of h2, then γ.
    pub fn gamma(self, quotient: u32, gamma: u32) -> Stepped<()>
        ensures { stepped_meaning result ≡ gamma_step baby_bear (session_meaning self) quotient gamma }
    {
        let judgement = refusals::judge_gamma(
            MODULE_PRIME,
            self.stage,
            self.sizes,
            quotient,
            gamma,
        );
        let t = Transcript {
            gamma,
            ..self.transcript
        };
        self.step(judgement, 6, t)
    }

    // The session at a stage, and the answer to openings.
    fn answered(self, stage: u32, answer: Result<Verdict, Refusal>) -> Stepped<Verdict>
        ensures { openings_stepped_meaning result
            ≡ record {
              session = record { stage = stage; sizes = sizes self.sizes; x = self.x; transcript = transcript self.transcript };
              answer = openings_answer_meaning answer;
            } }
    {
        Stepped {
            session: Session { stage, ..self },
            answer,
        }
    }

    // The answer to the 21 openings.
    fn judgement(self, o: Opened, index: [[u32; 4]; 3]) -> Result<Verdict, Refusal>
        ensures { openings_answer_meaning result ≡ (ask_step baby_bear (session_meaning self) (meanings.openings o index)).answer }
    {
        refusals::judge_openings(
            MODULE_PRIME,
            self.stage,
            self.sizes,
            &self.x,
            self.transcript,
            o,
            index,
        )?;
        let n = self.sizes.x as usize;
        let verdict = verdict::verdict(
            MODULE_PRIME,
            self.sizes,
            &self.x[..n],
            self.transcript,
            o,
            index,
        );
        Ok(verdict)
    }

    // Asks for the verdict on the 21 openings. Refusals: 1, then 6.
    pub fn ask(self, o: Opened, index: [[u32; 4]; 3]) -> Stepped<Verdict>
        ensures { openings_stepped_meaning result ≡ ask_step baby_bear (session_meaning self) (meanings.openings o index) }
    {
        self.answered(self.stage, self.judgement(o, index))
    }

    // Commits the 21 openings: the answer is the one that asking gives for them, and a verdict closes the session. Refusals: 1, then 6.
    pub fn commit(self, o: Opened, index: [[u32; 4]; 3]) -> Stepped<Verdict>
        ensures { openings_stepped_meaning result ≡ commit_step baby_bear (session_meaning self) (meanings.openings o index) }
    {
        let answer = self.judgement(o, index);
        match answer {
            Ok(_) => self.answered(7, answer),
            Err(_) => self.answered(self.stage, answer),
        }
    }
}
