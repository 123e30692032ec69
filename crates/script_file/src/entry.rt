// The entries of a file's sections: type codes and nodes.
ghost use Rattle.std.specs.Prelude.{◌≡◌, ℕ, ◌+◌, ◌^◌, ◌<◌, List, OnOk, Result};
ghost use Rattle.script_file.specs.declared.fault.FileFault.{FileFault};
ghost use Rattle.script_file.specs.Format.{node_of};
ghost use Rattle.script_file.specs.Reading.{node_at, type_at};
ghost use Rattle.script_file.specs.Steps.{Moves};

use crate::fault::FileFault;
use crate::reader::Reader;
use java::Primitive;
use script::{Node, Pos};

// The node of 14 bytes. No `From`, which can't stand here: neither type is of this crate.
fn node_from(bytes: [u8; 14]) -> Node
    ensures { result ≡ node_of bytes }
{
    let [kind, detail, u0, u1, e0, e1, n0, n1, n2, n3, n4, n5, n6, n7] = bytes;
    Node {
        kind,
        detail,
        up: Pos(u16::from_le_bytes([u0, u1])),
        end: Pos(u16::from_le_bytes([e0, e1])),
        number: i64::from_le_bytes([n0, n1, n2, n3, n4, n5, n6, n7]),
    }
}

// An entry of a section, of which several follow each other in the file.
pub(crate) trait Entry: Copy {
    // how many bytes it takes
    ghost width: { ℕ };

    // what stands at an offset of the bytes
    ghost found: { List ℕ → ℕ → Result Self FileFault };

    fn read(reader: &mut Reader) -> Result<Self, FileFault>
        requires { reader.old.at + width < 2 ^ 16 }
        ensures value { result ≡ found reader.old.bytes.now reader.old.at }
        ensures moved { OnOk result (Moves reader.old reader.new width) };
}

impl Entry for Primitive {
    ghost width = { 1 };

    ghost found = { type_at };

    fn read(reader: &mut Reader) -> Result<Primitive, FileFault> {
        let at = reader.at();
        let [code] = reader.chunk::<1>()?;
        Primitive::try_from(code).map_err(|_| FileFault::TypeCode(at))
    }
}

impl Entry for Node {
    ghost width = { 14 };

    ghost found = { node_at };

    fn read(reader: &mut Reader) -> Result<Node, FileFault> {
        reader.chunk().map(node_from)
    }
}
