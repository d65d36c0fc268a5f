//! Where the bytes of a listing go.

ghost use Rattle.std.specs.Prelude.{◌≡◌, ℕ, List, [], ◌++◌, OnOk};

/// Something that takes bytes. It is known by a model: `state` is the model of a value, `took` the model after bytes
/// were put.
pub trait Sink {
    /// Why bytes could not be put.
    type Error;

    ghost Model: { Type 0 };

    ghost state: { Self → Model };

    ghost took: { Model → List ℕ → Model };

    /// Takes all the bytes, or says why not.
    fn put(&mut self, bytes: &[u8]) -> Result<(), Self::Error>
        ensures { OnOk result (state self.new ≡ took (state self.old) bytes.now) };

    ghost nothing: { (m : Model) → took m [] ≡ m };

    ghost joined: { (m : Model) (a b : List ℕ) → took (took m a) b ≡ took m (a ++ b) };
}
