// From C: strings, minutes, the feed and the instant. Statuses and kinds are numbers, and results behind pointers,
// since this is what C calls.
ghost use Rattle.std.specs.Prelude.{◌≡◌, ℕ, List, [], ◌∷◌, ◌++◌};
ghost use Rattle.clock_time.specs.Called.{called};
ghost use Rattle.time_string.specs.Kind.{kind_number};
ghost use Rattle.time_string.specs.Accepted.{TellsKind};
ghost use Rattle.time_string.specs.declared.Kind.{Kind};
ghost use Rattle.dcf77.specs.Accepts.{AcceptsMinute};
ghost use Rattle.c_numbers.specs.Numbers.{minute_numbers};
ghost use Rattle.c_readings.specs.Strings.{reading_numbers};
ghost use Rattle.c_feed.specs.Feed.{feed_memory};
ghost use Rattle.demands.specs.Refusals.{CallRefusesAndKeeps};
ghost use Rattle.time_string.specs.Row.{text_order};
ghost use Rattle.demands.specs.Lines.{own_numbers, minute_order, kind_lines, read_lines};
ghost use Rattle.demands.specs.Lines.{write_lines, writer_lines};
ghost use Rattle.demands.specs.Lines.{read_minute_lines, instant_lines_of, feed_lines};
ghost use Rattle.demands.specs.Accepted.{AcceptsNumbered, AcceptsNumbers, AcceptsMinuteNumbers};
ghost use Rattle.demands.specs.Instant.{InstantOfNumbers};
ghost use Rattle.demands.specs.Streams.{CallFeeds};
ghost use Rattle.demands.specs.Exactly.{CallAnswersExactly, CallReadsExactly, CallWritesExactly};

fn radio_clock_kind(s: &[u8], kind: &mut u8) -> u8
    ensures demand_1 { CallRefusesAndKeeps (kind_lines s.now) (1 ∷ []) kind.old (called result kind.new) }
    ensures answer { CallAnswersExactly (λ n. (k : Kind) × (TellsKind s.now k × (n ≡ kind_number k)))
        (called result kind.new) }
{
    c_readings::strings::radio_clock_kind(s, kind)
}

fn radio_clock_read(kind: u8, s: &[u8], fields: &mut [i32]) -> u8
    ensures demand_1 { (k : Kind) → kind ≡ kind_number k
        → CallRefusesAndKeeps (read_lines k s.now fields.old)
        (text_order (own_numbers k) ++ (20 ∷ []))
        fields.old (called result fields.new) }
    ensures unknown_kind { ((k : Kind) → kind ≡ kind_number k → ⊥)
        → called result fields.new ≡ called 1 fields.old }
    ensures demand_2 { CallReadsExactly reading_numbers (AcceptsNumbered kind s.now) fields.old
        (called result fields.new) }
{
    c_readings::strings::radio_clock_read(kind, s, fields)
}

fn radio_clock_write(kind: u8, fields: &[i32], out: &mut [u8], written: &mut usize) -> u8
    ensures demand_1 { CallRefusesAndKeeps {M = List ℕ × ℕ} (write_lines kind fields.now out.old)
        (1 ∷ 23 ∷ 20 ∷ [])
        (out.old, written.old) (called result (out.new, written.new)) }
    ensures demand_2 { CallWritesExactly (λ s. AcceptsNumbers kind s fields.now) out.old
        (called result (out.new, written.new)) }
{
    c_readings::strings::radio_clock_write(kind, fields, out, written)
}

fn radio_clock_read_minute(marks: &[u8], fields: &mut [i32]) -> u8
    ensures demand_1 { CallRefusesAndKeeps (read_minute_lines marks.now fields.old) (minute_order ++ (20 ∷ []))
        fields.old (called result fields.new) }
    ensures demand_2 { CallReadsExactly minute_numbers (AcceptsMinute marks.now) fields.old
        (called result fields.new) }
{
    c_readings::minutes::radio_clock_read_minute(marks, fields)
}

fn radio_clock_write_minute(fields: &[i32], out: &mut [u8], written: &mut usize) -> u8
    ensures demand_1 { CallRefusesAndKeeps {M = List ℕ × ℕ}
        (writer_lines (λ m. AcceptsMinuteNumbers m fields.now) out.old) (23 ∷ 20 ∷ [])
        (out.old, written.old) (called result (out.new, written.new)) }
    ensures demand_2 { CallWritesExactly (λ m. AcceptsMinuteNumbers m fields.now) out.old
        (called result (out.new, written.new)) }
{
    c_readings::minutes::radio_clock_write_minute(fields, out, written)
}

fn radio_clock_unix_time(fields: &[i32], time: &mut i64) -> u8
    ensures demand_1 { CallRefusesAndKeeps (instant_lines_of fields.now) (23 ∷ []) time.old
        (called result time.new) }
    ensures answer { CallAnswersExactly (InstantOfNumbers fields.now) (called result time.new) }
{
    c_readings::instant::radio_clock_unix_time(fields, time)
}

fn radio_clock_feed(
    state: &mut [u8],
    s: &[u8],
    limit: usize,
    taken: &mut usize,
    event: &mut u8,
) -> u8
    ensures demand_1 { CallRefusesAndKeeps (feed_lines state.old) (20 ∷ [])
        (feed_memory state.old taken.old event.old)
        (called result (feed_memory state.new taken.new event.new)) }
    ensures feed { result ≡ 0
        → CallFeeds state.old s.now limit
        (feed_memory state.new taken.new event.new) }
{
    c_readings::feed::radio_clock_feed(state, s, limit, taken, event)
}
