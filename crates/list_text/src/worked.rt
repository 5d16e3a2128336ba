//! Worked examples of rows, computed when the crate is checked.
ghost use Rattle.std.specs.Prelude.{◌≡◌, codes, true, false};
ghost use Rattle.ns_tree.specs.Space.{root_pair};
ghost use Rattle.list_text.specs.Permissions.{letters};
ghost use Rattle.list_text.specs.Texts.{row_text};
ghost use Rattle.list_text.specs.Examples.{file_row, shared_row};

/// 755, 644, and the sticky bit with and without the last `x`.
pub fn known_permissions_have_letters()
    ensures directory { letters true 493 ≡ codes "drwxr-xr-x" }
    ensures file { letters false 420 ≡ codes "-rw-r--r--" }
    ensures sticky { letters true 1023 ≡ codes "drwxrwxrwt" }
    ensures sticky_alone { letters true 512 ≡ codes "d--------T" }
{}

/// The root as it is at the beginning, a file of two blocks, and a directory with a quota of names.
pub fn known_rows_have_texts()
    ensures root { row_text root_pair ≡ codes "/\t0\t0\t0\t0\t0\t0\t-1\t-1\tdrwxr-xr-x\thdfs\tsupergroup" }
    ensures file { row_text file_row ≡ codes "/f\t3\t10\t11\t1048576\t2\t1048600\t0\t0\t-rw-r--r--\tu\tg" }
    ensures directory { row_text shared_row ≡ codes "/t\t0\t7\t0\t0\t0\t0\t5\t-1\tdrwxrwxrwt\tu\tg" }
{}
