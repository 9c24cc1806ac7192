// The fields of the controller's words, put together and taken apart by shifts and masks. Each field stays
// a function of its own over `is_set` or `with_field`: with the bit as an argument, as `is_set(w, 9)`, a
// caller would name a number where it now names the field, and STOP and STOP_DET are both bit 9.
ghost use Rattle.std.specs.Prelude.{◌≡◌, ◌+◌, ◌<◌, ◌≤◌, ◌^◌};
ghost use Rattle.regs.specs.Fields.{bit, set_field, command_word, dat, cmd, stop, restart};
ghost use Rattle.regs.specs.Fields.{first_data_byte, tx_empty, rd_req, tx_abrt, rx_done, stop_det};
ghost use Rattle.regs.specs.Fields.{gen_call, restart_det, set_m_rx_full, set_m_tx_empty};
ghost use Rattle.regs.specs.Fields.{set_m_tx_abrt, set_m_stop_det, rfne, level, no_acknowledge};
ghost use Rattle.regs.specs.Fields.{txdata_noack, arb_lost, tx_flush_cnt, address_field, set_ic_sda_tx_hold};
ghost use Rattle.regs.specs.Fields.{con_slave};

// Bit k of a word: every test of a bit is this one.
fn is_set(w: u32, k: u32) -> bool
    requires { k < 32 }
    ensures { result ≡ bit k w }
{
    (w >> k) & 1 == 1
}

// A word with x in its n bits from bit k on: every change of a field is this one.
fn with_field(w: u32, k: u32, n: u32, x: u32) -> u32
    requires { (n < 32)
        × (n + k ≤ 32)
        × (k < 32)
        × (x < 2 ^ n) }
    ensures { result ≡ set_field k n x w }
{
    (w & !(((1 << n) - 1) << k)) | (x << k)
}

// A word for DATA_CMD.
pub fn word_of(byte: u8, read: bool, stop: bool, restart: bool) -> u32
    ensures { result ≡ command_word byte read stop restart }
{
    u32::from(byte) | (u32::from(read) << 8) | (u32::from(stop) << 9) | (u32::from(restart) << 10)
}

// The byte of a word written to DATA_CMD or read there. This and `level_of` stay two functions: each is
// one mask, and with the mask as an argument a caller would name a number.
pub fn byte_of(w: u32) -> u8
    ensures { result ≡ dat w }
{
    (w & 0xff) as u8
}

// The bit of a read. It and the 13 below it stay functions over `is_set`, each with the name of its field.
pub fn is_read(w: u32) -> bool
    ensures { result ≡ cmd w }
{
    is_set(w, 8)
}

pub fn has_stop(w: u32) -> bool
    ensures { result ≡ stop w }
{
    is_set(w, 9)
}

pub fn has_restart(w: u32) -> bool
    ensures { result ≡ restart w }
{
    is_set(w, 10)
}

pub fn is_first_data_byte(w: u32) -> bool
    ensures { result ≡ first_data_byte w }
{
    is_set(w, 11)
}

pub fn has_tx_empty(w: u32) -> bool
    ensures { result ≡ tx_empty w }
{
    is_set(w, 4)
}

pub fn has_rd_req(w: u32) -> bool
    ensures { result ≡ rd_req w }
{
    is_set(w, 5)
}

pub fn has_tx_abrt(w: u32) -> bool
    ensures { result ≡ tx_abrt w }
{
    is_set(w, 6)
}

pub fn has_rx_done(w: u32) -> bool
    ensures { result ≡ rx_done w }
{
    is_set(w, 7)
}

pub fn has_stop_det(w: u32) -> bool
    ensures { result ≡ stop_det w }
{
    is_set(w, 9)
}

pub fn has_gen_call(w: u32) -> bool
    ensures { result ≡ gen_call w }
{
    is_set(w, 11)
}

pub fn has_restart_det(w: u32) -> bool
    ensures { result ≡ restart_det w }
{
    is_set(w, 12)
}

pub fn is_not_empty(w: u32) -> bool
    ensures { result ≡ rfne w }
{
    is_set(w, 3)
}

// It and the three below it stay functions over `with_field`, each with the name of its interrupt.
pub fn with_m_rx_full(w: u32) -> u32
    ensures { result ≡ set_m_rx_full w }
{
    with_field(w, 2, 1, 1)
}

pub fn with_m_tx_empty(w: u32) -> u32
    ensures { result ≡ set_m_tx_empty w }
{
    with_field(w, 4, 1, 1)
}

pub fn with_m_tx_abrt(w: u32) -> u32
    ensures { result ≡ set_m_tx_abrt w }
{
    with_field(w, 6, 1, 1)
}

pub fn with_m_stop_det(w: u32) -> u32
    ensures { result ≡ set_m_stop_det w }
{
    with_field(w, 9, 1, 1)
}

// The level of a FIFO, from TXFLR or RXFLR.
pub fn level_of(w: u32) -> u8
    ensures { result ≡ level w }
{
    (w & 0x1f) as u8
}

pub fn is_no_acknowledge(w: u32) -> bool
    ensures { result ≡ no_acknowledge w }
{
    w & 7 != 0
}

pub fn is_data_not_acknowledged(w: u32) -> bool
    ensures { result ≡ txdata_noack w }
{
    is_set(w, 3)
}

pub fn is_arbitration_loss(w: u32) -> bool
    ensures { result ≡ arb_lost w }
{
    is_set(w, 12)
}

pub fn flush_count(w: u32) -> u16
    ensures { result ≡ tx_flush_cnt w }
{
    ((w >> 23) & 0x1ff) as u16
}

// The address in TAR or SAR.
pub fn address_of(w: u32) -> u32
    ensures { result ≡ address_field w }
{
    w & 0x3ff
}

pub fn with_sda_tx_hold(w: u32, hold: u16) -> u32
    ensures { result ≡ set_ic_sda_tx_hold hold w }
{
    with_field(w, 0, 16, u32::from(hold))
}

// CON with what a slave's reset sets.
pub fn con_of_slave(w: u32, general_call: bool) -> u32
    ensures { result ≡ con_slave general_call w }
{
    let master = with_field(w, 0, 1, 0);
    let disable = with_field(master, 6, 1, 0);
    let empty = with_field(disable, 8, 1, 1);
    let hold = with_field(empty, 9, 1, 1);
    let speed = with_field(hold, 1, 2, 2);
    with_field(speed, 7, 1, u32::from(!general_call))
}
