ghost use Rattle.std.specs.Prelude.{◌≡◌, ◌^◌, ◌<◌, ◌≤◌, false};
ghost use Rattle.value.specs.Rows.{width, part};

use crate::values::Value;

impl Value {
    pub fn width(&self) -> u8
        ensures value { result ≡ width self.now.row }
        ensures some { 1 ≤ result }
        ensures fits { result ≤ 64 }
    {
        let row = self.row();
        row.high - row.low + 1
    }

    // The number or the offset; of a part, the offset of the pointer that it was cut from.
    pub fn number(&self) -> u64
        ensures value { result ≡ self.now.row.number }
        ensures below { part self.now.row ≡ false → result < 2 ^ width self.now.row }
    {
        self.row().number
    }
}
