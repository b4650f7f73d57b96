//! Questions about streams as those of a load on several channels.

use crate::show::put_loaded;
use mig_cases::{Case, Done, Trouble};
use mig_load_types::LoadSettings;
use mig_mem::{MAX_TOTAL, is_page_size};
use mig_packet::OpenGate;
use mig_relay::{load_multi, load_multi_with};
use mig_stream::Frame;
use std::sync::Wait;
use std::thread::Threads;

/// Writes the result of loading the streams: the first is the main stream, and each further one is
/// a channel.
pub fn load_several<R: Threads + Wait + Sync>(out: &mut String, rt: &R, case: &Case) -> Done {
    let Some((main, channels)) = case.texts.split_first() else {
        return Err(Trouble::Line);
    };
    if !is_page_size(case.page_size) || case.limit > MAX_TOTAL {
        return Err(Trouble::Line);
    }
    if channels.is_empty() || channels.len() > 255 {
        return Err(Trouble::Line);
    }
    if case.is_machine {
        let settings = LoadSettings::new(case.page_size, case.limit).with_frame(Frame::Machine);
        let gate = OpenGate;
        let loaded = load_multi_with(rt, case.alloc, settings, &case.uuid, main, channels, &gate);
        return put_loaded(out, &loaded);
    }
    let loaded = load_multi(
        rt,
        case.alloc,
        case.page_size,
        &case.uuid,
        main,
        channels,
        case.limit,
        &OpenGate,
    );
    put_loaded(out, &loaded)
}
