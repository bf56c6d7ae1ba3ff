//! `options`: what a socket is made with, and which of it is valid.

use crate::answer::{Answer, Subject};
use crate::output::Output;
use crate::words::Line;
use sctp_serial::{LifecycleId, ZeroChecksumAlternateErrorDetectionMethod};
use sctp_state::Options;
use sctp_state::api::laws;

impl Subject for Options {
    /// `valid`; `copy`; `send ID`: the options of a message, with this lifecycle; what can be shown, and what can be set.
    fn obey(&mut self, line: &Line<'_>, output: &mut Output) -> Answer {
        match line.name {
            "valid" => Answer::Is(self.is_valid()),
            "copy" => copy(self),
            "send" => show_send_options(line.first.long, output),
            "sizes" => show_sizes(self, output),
            "limits" => show_limits(self, output),
            "windows" => show_windows(self, output),
            _ => show_or_set(self, line, output),
        }
    }
}

fn show_or_set(options: &mut Options, line: &Line<'_>, output: &mut Output) -> Answer {
    match line.name {
        "switches" => show_switches(options, output),
        "fragments" => output.debug_text(": ", &options.max_held_fragments),
        "timeouts" => show_timeouts(options, output),
        "intervals" => show_intervals(options, output),
        "stalls" => show_stalls(options, output),
        _ => set_option(options, line),
    }
}

fn copy(options: &mut Options) -> Answer {
    match laws::copy_of_options(options) {
        Ok(copy) => {
            *options = copy;
            Answer::Done
        }
        Err(_) => Answer::NoMemory,
    }
}

fn show_send_options(id: u64, output: &mut Output) -> Answer {
    let mut options = laws::plain_send_options();
    options.lifecycle_id = LifecycleId::new(id);
    output.debug_text(": ", &options)
}

fn show_sizes(o: &Options, output: &mut Output) -> Answer {
    output.text(
        ": local-port # remote-port # incoming # outgoing # mtu # message # priority #",
        &[
            o.local_port as u128,
            o.remote_port as u128,
            o.announced_maximum_incoming_streams as u128,
            o.announced_maximum_outgoing_streams as u128,
            o.mtu as u128,
            o.max_message_size as u128,
            o.default_stream_priority as u128,
        ],
    )
}

fn show_limits(o: &Options, output: &mut Output) -> Answer {
    output.text(
        ": receiver-window # send-buffer # stream-queue # total-low # stream-low #",
        &[
            o.max_receiver_window_buffer_size as u128,
            o.max_send_buffer_size as u128,
            o.per_stream_send_queue_limit as u128,
            o.total_buffered_amount_low_threshold as u128,
            o.default_stream_buffered_amount_low_threshold as u128,
        ],
    )
}

fn show_windows(o: &Options, output: &mut Output) -> Answer {
    output.fill(
        ": initial # least # no-fragments # immediate-sack #",
        &[
            o.cwnd_mtus_initial as u128,
            o.cwnd_mtus_min as u128,
            o.avoid_fragmentation_cwnd_mtus as u128,
            o.immediate_sack_under_cwnd_mtus as u128,
        ],
    );
    output.debug_text(" burst ", &o.max_burst);
    output.debug_text(" retransmissions ", &o.max_retransmissions);
    output.debug_text(" ", &o.max_init_retransmits)
}

fn show_switches(o: &Options, output: &mut Output) -> Answer {
    output.text(
        ": partial-reliability # interleaving # heartbeat-with-rtt # any-checksum # handover-with-data # method #",
        &[
            o.enable_partial_reliability as u128,
            o.enable_message_interleaving as u128,
            o.heartbeat_interval_include_rtt as u128,
            o.disable_checksum_verification as u128,
            o.enable_handover_with_outstanding_data as u128,
            o.zero_checksum_alternate_error_detection_method.0 as u128,
        ],
    )
}

/// In milliseconds.
fn show_timeouts(o: &Options, output: &mut Output) -> Answer {
    output.text(
        ": rtt-most # rto-initial # rto-least # rto-most # t1-init # t1-cookie # t2-shutdown #",
        &[
            o.rtt_max.as_millis(),
            o.rto_initial.as_millis(),
            o.rto_min.as_millis(),
            o.rto_max.as_millis(),
            o.t1_init_timeout.as_millis(),
            o.t1_cookie_timeout.as_millis(),
            o.t2_shutdown_timeout.as_millis(),
        ],
    )
}

/// In milliseconds.
fn show_intervals(o: &Options, output: &mut Output) -> Answer {
    output.text(
        ": backoff-is-bounded # heartbeat # delayed-ack # variance #",
        &[
            o.max_timer_backoff_duration.is_some() as u128,
            o.heartbeat_interval.as_millis(),
            o.delayed_ack_max_timeout.as_millis(),
            o.min_rtt_variance.as_millis(),
        ],
    )
}

/// Whether they are avoided, and how many milliseconds timers wait at most.
fn show_stalls(o: &Options, output: &mut Output) -> Answer {
    output.debug_text(": avoided ", &o.avoid_stalls);
    output.debug_text(" backoff ", &o.t3_backoff().map(|span| span.as_millis()));
    output.debug_text(" ", &o.reconfig_backoff().map(|span| span.as_millis()))
}

/// Sets the option of the line's name.
pub fn set_option(options: &mut Options, line: &Line<'_>) -> Answer {
    let size = line.first.size;
    match line.name {
        "mtu" => options.mtu = size,
        "message" => options.max_message_size = size,
        "held" => options.max_held_fragments = Some(size),
        "immediate-sack" => options.immediate_sack_under_cwnd_mtus = size,
        "least-window" => options.cwnd_mtus_min = size,
        _ => return set_time(options, line),
    }
    Answer::Done
}

fn set_time(options: &mut Options, line: &Line<'_>) -> Answer {
    let time = line.first.millis();
    match line.name {
        "initial" => options.rto_initial = time,
        "least" => options.rto_min = time,
        "most" => options.rto_max = time,
        "variance" => options.min_rtt_variance = time,
        "backoff" => options.max_timer_backoff_duration = Some(time),
        _ => return set_announced(options, line),
    }
    Answer::Done
}

fn set_announced(options: &mut Options, line: &Line<'_>) -> Answer {
    let is_on = line.first.long == 1;
    let method = ZeroChecksumAlternateErrorDetectionMethod(line.first.word);
    match line.name {
        "avoid-stalls" => options.avoid_stalls = is_on,
        "incoming" => options.announced_maximum_incoming_streams = line.first.half,
        "outgoing" => options.announced_maximum_outgoing_streams = line.first.half,
        "partial-reliability" => options.enable_partial_reliability = is_on,
        "interleaving" => options.enable_message_interleaving = is_on,
        "method" => options.zero_checksum_alternate_error_detection_method = method,
        _ => return Answer::Unknown,
    }
    Answer::Done
}
