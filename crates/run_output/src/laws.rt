//! Laws of the definitions.

ghost use Rattle.std.specs.Prelude.{ℕ, List};
ghost use Rattle.qml_outside.specs.Folder.{Folder};
ghost use Rattle.run_output.specs.Output.{Output, EndsSo};
ghost use Rattle.run_output.specs.Running.{Asked, IsOutput};

/// An output that ends tells its status in its last entry.
pub fn endings_are_told()
    ensures { (asked : Asked) (files : Folder) (readings : List ℕ) (output : Output) → IsOutput asked files readings output → EndsSo output }
{}
