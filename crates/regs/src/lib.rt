// The register library beneath master and slave: the controller's
// 25 registers, the fields of their words, and the access log.
#![tactic(auto)]

ghost use Rattle.std.specs.Prelude.{◌≡◌, slice_get};
ghost use Rattle.regs.specs.Registers.{offsets};

pub mod answers; // what a call answers
pub mod fields; // the words' fields, by shifts and masks
pub mod access; // one access: performed, logged and read back

// The registers' offsets (RP2040 datasheet, I2C chapter), ascending. The names below are its rows.
pub const OFFSETS: [u8; 25] = [
    0x00, 0x04, 0x08, 0x10, 0x1C, 0x20, 0x30, 0x34, 0x38, 0x3C, 0x40, 0x50, 0x54, 0x58, 0x60, 0x68,
    0x6C, 0x70, 0x74, 0x78, 0x7C, 0x80, 0x98, 0xA0, 0xA8,
];

// The registers stay numbers: a log's word may hold any, and C performs the accesses by their offsets.
pub const CON: u8 = OFFSETS[0];

pub const TAR: u8 = OFFSETS[1];

pub const SAR: u8 = OFFSETS[2];

pub const DATA_CMD: u8 = OFFSETS[3];

pub const FS_SCL_HCNT: u8 = OFFSETS[4];

pub const FS_SCL_LCNT: u8 = OFFSETS[5];

pub const INTR_MASK: u8 = OFFSETS[6];

pub const RAW_INTR_STAT: u8 = OFFSETS[7];

pub const RX_TL: u8 = OFFSETS[8];

pub const TX_TL: u8 = OFFSETS[9];

pub const CLR_INTR: u8 = OFFSETS[10];

pub const CLR_RD_REQ: u8 = OFFSETS[11];

pub const CLR_TX_ABRT: u8 = OFFSETS[12];

pub const CLR_RX_DONE: u8 = OFFSETS[13];

pub const CLR_STOP_DET: u8 = OFFSETS[14];

pub const CLR_GEN_CALL: u8 = OFFSETS[15];

pub const ENABLE: u8 = OFFSETS[16];

pub const STATUS: u8 = OFFSETS[17];

pub const TXFLR: u8 = OFFSETS[18];

pub const RXFLR: u8 = OFFSETS[19];

pub const SDA_HOLD: u8 = OFFSETS[20];

pub const TX_ABRT_SOURCE: u8 = OFFSETS[21];

pub const ACK_GENERAL_CALL: u8 = OFFSETS[22];

pub const FS_SPKLEN: u8 = OFFSETS[23];

pub const CLR_RESTART_DET: u8 = OFFSETS[24];

// The names in the table's order.
const NAMED: [u8; 25] = [
    CON,
    TAR,
    SAR,
    DATA_CMD,
    FS_SCL_HCNT,
    FS_SCL_LCNT,
    INTR_MASK,
    RAW_INTR_STAT,
    RX_TL,
    TX_TL,
    CLR_INTR,
    CLR_RD_REQ,
    CLR_TX_ABRT,
    CLR_RX_DONE,
    CLR_STOP_DET,
    CLR_GEN_CALL,
    ENABLE,
    STATUS,
    TXFLR,
    RXFLR,
    SDA_HOLD,
    TX_ABRT_SOURCE,
    ACK_GENERAL_CALL,
    FS_SPKLEN,
    CLR_RESTART_DET,
];

// The register named in a row of the table, if there is such a row. Constants have no
// contract: this function's holds every name, and so every row of `OFFSETS`, to the table of
// the definitions. No driver needs to call it.
pub fn offset(row: usize) -> Option<u8>
    ensures { result ≡ slice_get offsets row }
{
    NAMED.get(row).copied()
}

// The marks: a poll that is not done, and a reset of the block. They and the registers stay numbers,
// since the log's words and the accesses that a caller in C performs hold them as numbers.
pub const PENDING: u8 = 0;

pub const BLOCK_RESET: u8 = 1;
