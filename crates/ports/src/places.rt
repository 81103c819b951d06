// The words of a port and the offsets of its registers, by name (docs/TABLES.md, docs/GUESTS.md).

/// Of a port: the place of the line whose byte was read last, 0 where none was read.
pub const PORT_PLACE: u32 = 0;
/// Of a port: which byte of that line, counted from 1; 0 where none was read.
pub const PORT_BYTE: u32 = 1;
/// Of a port: the register of offset 1.
pub const PORT_ENABLE: u32 = 2;
/// Of a port: the register of offset 3.
pub const PORT_LINE: u32 = 3;
/// Of a port: the register of offset 4.
pub const PORT_MODEM: u32 = 4;
/// Of a port: the register of offset 7.
pub const PORT_SCRATCH: u32 = 5;
/// Of a port: the divisor's low byte.
pub const PORT_DIVISOR_LOW: u32 = 6;
/// Of a port: the divisor's high byte.
pub const PORT_DIVISOR_HIGH: u32 = 7;

/// The next byte of the listing; the divisor's low byte while bit 7 of the line register is set.
pub const OFFSET_DATA: u32 = 0;
/// Enables the received data interrupt; the divisor's high byte while bit 7 of the line register is set.
pub const OFFSET_ENABLE: u32 = 1;
/// Whether that interrupt is due.
pub const OFFSET_INTERRUPT: u32 = 2;
/// Line control.
pub const OFFSET_LINE: u32 = 3;
/// Modem control.
pub const OFFSET_MODEM: u32 = 4;
/// Line status: whether a byte waits.
pub const OFFSET_STATUS: u32 = 5;
/// Scratch.
pub const OFFSET_SCRATCH: u32 = 7;
