// Time strings: telling the kind, reading and writing.
ghost use Rattle.std.specs.Prelude.{[], ◌∷◌};
ghost use Rattle.clock_time.specs.Reading.{answer_of};
ghost use Rattle.clock_time.specs.Writing.{written};
ghost use Rattle.meinberg_standard.specs.Accepts.{AcceptsStandard};
ghost use Rattle.meinberg_standard.specs.Lines.{standard_lines};
ghost use Rattle.meinberg_pzf.specs.Accepts.{AcceptsPzf};
ghost use Rattle.meinberg_pzf.specs.Lines.{pzf_lines};
ghost use Rattle.meinberg_gps.specs.Accepts.{AcceptsGps};
ghost use Rattle.meinberg_gps.specs.Lines.{gps_lines};
ghost use Rattle.elv_dcf7000.specs.Accepts.{AcceptsElv};
ghost use Rattle.elv_dcf7000.specs.Lines.{elv_lines};
ghost use Rattle.time_string.specs.Accepted.{TellsKind, AcceptsAs};
ghost use Rattle.demands.specs.Refusals.{RefusesInOrder, RefusesAndKeeps};
ghost use Rattle.time_string.specs.Row.{text_order};
ghost use Rattle.demands.specs.Lines.{own_numbers, kind_lines, lines_as, writer_lines};
ghost use Rattle.demands.specs.Exactly.{ReadsExactly, WritesExactly};

use clock_time::{ClockTime, Error};
use meinberg_gps::GpsTime;
use time_string::{Kind, Reading};

fn kind_of(s: &[u8]) -> Result<Kind, Error>
    ensures demand_1 { RefusesInOrder (kind_lines s.now) (1 ∷ []) (answer_of result) }
    ensures answer { ReadsExactly (TellsKind s.now) (answer_of result) }
{
    time_string::kind_of(s)
}

fn read(kind: Kind, s: &[u8]) -> Result<Reading, Error>
    ensures demand_1 { RefusesInOrder (lines_as kind s.now) (text_order (own_numbers kind)) (answer_of result) }
    ensures demand_2 { ReadsExactly (AcceptsAs kind s.now) (answer_of result) }
{
    time_string::read(kind, s)
}

fn read_standard(s: &[u8]) -> Result<ClockTime, Error>
    ensures demand_1 { RefusesInOrder (standard_lines s.now) (text_order []) (answer_of result) }
    ensures demand_2 { ReadsExactly (AcceptsStandard s.now) (answer_of result) }
{
    meinberg_standard::read_standard(s)
}

fn read_pzf(s: &[u8]) -> Result<ClockTime, Error>
    ensures demand_1 { RefusesInOrder (pzf_lines s.now) (text_order []) (answer_of result) }
    ensures demand_2 { ReadsExactly (AcceptsPzf s.now) (answer_of result) }
{
    meinberg_pzf::read_pzf(s)
}

fn read_gps(s: &[u8]) -> Result<GpsTime, Error>
    ensures demand_1 { RefusesInOrder (gps_lines s.now) (text_order (8 ∷ 9 ∷ [])) (answer_of result) }
    ensures demand_2 { ReadsExactly (AcceptsGps s.now) (answer_of result) }
{
    meinberg_gps::read_gps(s)
}

fn read_elv(s: &[u8]) -> Result<ClockTime, Error>
    ensures demand_1 { RefusesInOrder (elv_lines s.now) (text_order []) (answer_of result) }
    ensures demand_2 { ReadsExactly (AcceptsElv s.now) (answer_of result) }
{
    elv_dcf7000::read_elv(s)
}

fn write_standard(t: ClockTime, out: &mut [u8]) -> Result<usize, Error>
    ensures demand_1 { RefusesAndKeeps (writer_lines (λ s. AcceptsStandard s t) out.old) (23 ∷ 20 ∷ []) out.old
        (written result out.new) }
    ensures demand_2 { WritesExactly (λ s. AcceptsStandard s t) out.old (written result out.new) }
{
    meinberg_standard_writer::write_standard(t, out)
}

fn write_pzf(t: ClockTime, out: &mut [u8]) -> Result<usize, Error>
    ensures demand_1 { RefusesAndKeeps (writer_lines (λ s. AcceptsPzf s t) out.old) (23 ∷ 20 ∷ []) out.old
        (written result out.new) }
    ensures demand_2 { WritesExactly (λ s. AcceptsPzf s t) out.old (written result out.new) }
{
    meinberg_pzf_writer::write_pzf(t, out)
}

fn write_gps(g: GpsTime, out: &mut [u8]) -> Result<usize, Error>
    ensures demand_1 { RefusesAndKeeps (writer_lines (λ s. AcceptsGps s g) out.old) (23 ∷ 20 ∷ []) out.old
        (written result out.new) }
    ensures demand_2 { WritesExactly (λ s. AcceptsGps s g) out.old (written result out.new) }
{
    meinberg_gps_writer::write_gps(g, out)
}

fn write_elv(t: ClockTime, out: &mut [u8]) -> Result<usize, Error>
    ensures demand_1 { RefusesAndKeeps (writer_lines (λ s. AcceptsElv s t) out.old) (23 ∷ 20 ∷ []) out.old
        (written result out.new) }
    ensures demand_2 { WritesExactly (λ s. AcceptsElv s t) out.old (written result out.new) }
{
    elv_dcf7000_writer::write_elv(t, out)
}
