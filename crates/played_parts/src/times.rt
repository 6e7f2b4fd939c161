//! Questions about a clock, and the deadlines that are set by it.
use crate::texts::{explained, text};
use cip_base::Ms;
use cip_clock::{Clock, LAST};
use line_words::Words;

/// The answer to a question of this name: `clock MICROSECONDS` sets it, `advance MILLISECONDS` lets
/// them go by; `after_ticks TICK TICKS`, `after_rpi INTERVAL MULTIPLIER`.
pub fn answer(clock: &mut Clock, name: &str, words: &mut Words) -> Option<String> {
    let alloc = words.alloc;
    match name {
        "clock" => {
            let now = words.u64()?;
            if now > LAST {
                return None;
            }
            *clock = Clock::new(now);
            text(alloc, clock.now())
        }
        "now" => text(alloc, clock.now()),
        "after_ticks" => {
            let tick = words.u8()?;
            if tick >= 16 {
                return None;
            }
            text(alloc, clock.after_ticks(tick, words.u8()?))
        }
        "after_rpi" => {
            let rpi = words.u32()?;
            let multiplier = words.u8()?;
            if multiplier >= 8 {
                return None;
            }
            text(alloc, clock.after_rpi(rpi, multiplier))
        }
        "advance" => match clock.advance(Ms::new(words.u16()?)?) {
            Ok(()) => text(alloc, clock.now()),
            Err(fault) => explained(alloc, fault),
        },
        _ => None,
    }
}
