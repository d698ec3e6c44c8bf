// Calls of at most three jobs, and lists of them.

// A job: its name, and how many slots it needs.
#[derive(Clone, Copy, Debug, PartialEq, Eq, Hash)]
pub struct Job {
    pub name: u8,
    pub slots: u8,
}

// A call at a clock, of the first so many jobs. Those past them have no slots, and names that no
// job and no preset has.
#[derive(Clone, Copy, Debug, PartialEq, Eq, Hash)]
pub struct Call {
    pub jobs: [Job; 3],
    pub count: usize,
    pub clock: usize,
}

// A code for a number below 2 ^ 32, another one for each, so that neighbours differ in the high
// bits.
pub fn code_of(n: usize) -> u32 {
    let low = (n % 0x1_0000_0000) as u32;
    low.wrapping_mul(2654435761).wrapping_add(1013904223)
}

// How many jobs a call has: one is more frequent.
fn count_of(code: u32) -> u8 {
    match code >> 30 {
        0 | 1 => 1,
        2 => 2,
        _ => 3,
    }
}

// The name of a call's last job where that is not new, which it is in three quarters of the calls:
// a preset's, an earlier call's, or any other below 16.
fn last_name(code: u32) -> Option<u8> {
    (code >> 21 & 3 == 0).then_some((code >> 23 & 15) as u8)
}

// The clock of a call, by four bits of its code. Document 02, 2026-05: "0 the start; 2 and 11 take
// 0 to S + 1 as the clock's range". Each of these is drawn, 0 by at least half of the choices; a
// choice above S + 1 begins again at 0.
fn clock_of(code: u32, slots: usize) -> usize {
    const CLOCKS: [usize; 16] = [0, 0, 0, 0, 0, 0, 0, 0, 1, 1, 2, 3, 4, 5, 6, 7];
    let choice = code >> 26 & 14 | code >> 19 & 1;
    CLOCKS[choice as usize % 16] % slots.saturating_add(2)
}

// A code at a step of a list, whose new names are those of the step.
#[derive(Clone, Copy, Debug, PartialEq, Eq, Hash)]
struct Drawn {
    code: u32,
    step: u8,
}

impl Drawn {
    // The name of a job of a call with so many.
    fn name(&self, i: u8, count: u8) -> u8 {
        let new = 3 + self.step % 3 * 3 + i % 3;
        if i >= count {
            return 16 + new;
        }
        if i + 1 < count {
            return new;
        }
        last_name(self.code).unwrap_or(new)
    }

    // A job of a call with so many, by its byte of the code: one slot is more frequent.
    fn job(&self, i: u8, byte: u8, count: u8) -> Job {
        let slots = (byte & byte >> 4 & 3).max(1);
        Job {
            name: self.name(i, count),
            slots: if i < count { slots } else { 0 },
        }
    }
}

impl Call {
    // The call at a step of a list, below 3, on a frame of so many slots. One job and an early
    // clock are more frequent.
    pub fn at(list: usize, step: u8, slots: usize) -> Call {
        let code = code_of(list.wrapping_mul(3).wrapping_add(usize::from(step)));
        let [a, b, c, _] = code.to_le_bytes();
        let drawn = Drawn { code, step };
        let count = count_of(code);
        Call {
            jobs: [
                drawn.job(0, a, count),
                drawn.job(1, b, count),
                drawn.job(2, c, count),
            ],
            count: usize::from(count),
            clock: clock_of(code, slots),
        }
    }

    // The call at another clock.
    pub fn with_clock(&self, clock: usize) -> Call {
        Call { clock, ..*self }
    }
}
